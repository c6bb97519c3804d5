//! A wall under survey, and what the survey itself keeps of it: which cables it has not cut.
use chooser::LowestPort;
use rules::Mark;
use sample::Random;
use std::num::Saturating;
use wall::Wall;
use wiring::{CableList, Wiring};

/// More slots than any recovery takes.
const MOST_SLOTS: u16 = 256;

/// Where the live cable of a port leads, and how the port is marked.
#[derive(Clone, Copy)]
pub struct Port {
    pub far: Option<(u8, u8)>,
    pub mark: Mark,
}

/// The ports of each node.
pub type Ports = [[Port; 4]; 64];

/// A port with no cable.
pub const NO_PORT: Port = Port {
    far: None,
    mark: Mark::Unmarked,
};

/// What a recovery took: slots until the wall was calm, and cycles that reached a node.
#[derive(Clone, Copy, Default)]
pub struct Effort {
    pub slots: Saturating<u64>,
    pub cycles: Saturating<u64>,
}

/// A wall and the cables that its survey has not cut.
#[derive(Drop)]
pub struct Field {
    pub wall: Wall<CableList, LowestPort>,
    pub ports: Ports,
}

// Asks a wiring for the cables of a node.
fn ask(list: &CableList, node: u8, ports: &mut [Port; 4]) {
    for (port, place) in (0..4u8).zip(ports.iter_mut()) {
        place.far = list.far_end(node, port);
    }
}

// Asks a wiring for all its cables, in place: of the node that a from_fn closure gets no bound is known.
fn ask_all(list: &CableList, ports: &mut Ports) {
    for (node, of_node) in (0..64u8).zip(ports.iter_mut()) {
        ask(list, node, of_node);
    }
}

// Takes the cable from a port, and says where it led.
fn take(ports: &mut Ports, (node, port): (u8, u8)) -> Option<(u8, u8)> {
    ports
        .get_mut(usize::from(node))?
        .get_mut(usize::from(port))?
        .far
        .take()
}

// Notes a node's marks.
fn note_marks(ports: &mut Ports, node: u8, marks: [Mark; 4]) {
    if let Some(ports) = ports.get_mut(usize::from(node)) {
        for (port, mark) in ports.iter_mut().zip(marks) {
            port.mark = mark;
        }
    }
}

impl Field {
    /// The wall at power-up.
    pub(crate) fn power_up(list: &CableList) -> Field {
        let mut ports = [[NO_PORT; 4]; 64];
        ask_all(list, &mut ports);
        Field {
            wall: Wall::power_up(*list, LowestPort::new()),
            ports,
        }
    }

    /// Runs slots until the wall is calm, and says what it took.
    pub(crate) fn settle(&mut self) -> Effort {
        let mut effort = Effort::default();
        for _ in 0..MOST_SLOTS {
            if self.wall.calm() {
                break;
            }
            let answer = self.wall.slot();
            effort.slots += 1;
            effort.cycles += u64::from(answer.cycles);
        }
        effort
    }

    /// Runs so many slots.
    pub(crate) fn idle(&mut self, slots: u8) {
        for _ in 0..slots {
            let _ = self.wall.slot();
        }
    }

    /// Cuts the cable at a port, and says whether there was a live one.
    pub(crate) fn cut(&mut self, node: u8, port: u8) -> bool {
        if self.wall.cut(node, port).is_err() {
            return false;
        }
        let ports = &mut self.ports;
        if let Some(far) = take(ports, (node, port)) {
            let _ = take(ports, far);
        }
        true
    }

    /// Cuts so many random cables, as long as one is met in a few hundred draws.
    pub(crate) fn cut_random(&mut self, random: &mut Random, cuts: u8) {
        let nodes = self.wall.node_count();
        let mut left = cuts;
        for _ in 0..8192u16 {
            if left == 0 {
                break;
            }
            if self.cut(random.below(nodes), random.below(4)) {
                left -= 1;
            }
        }
    }

    /// Cuts all cables of a node.
    pub(crate) fn cut_node(&mut self, node: u8) {
        for port in 0..4u8 {
            let _ = self.cut(node, port);
        }
    }

    /// Marks every port down, which permits every turn.
    pub(crate) fn mark_all_down(&mut self) {
        for node in 0..self.wall.node_count() {
            let ports = &mut self.ports;
            note_marks(ports, node, [Mark::Down; 4]);
        }
    }

    /// Asks the wall for all marks.
    pub(crate) fn note_all_marks(&mut self) {
        for node in 0..self.wall.node_count() {
            if let Ok(marks) = self.wall.marks(node) {
                let ports = &mut self.ports;
                note_marks(ports, node, marks);
            }
        }
    }
}
