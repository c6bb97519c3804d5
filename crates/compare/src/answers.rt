//! The answers of the two simulators, in one form.
use chooser::{Chooser, PortSet};
use flags::{Direction, Net};
use rules::{Mark, Mode};
use std::array::from_fn;
use std::fmt;
use wall::Wall;
use wiring::Wiring;

/// An entry: for each port whether it is one of its ports, and its count.
#[derive(Clone, Copy, PartialEq, Eq)]
pub struct Way {
    pub ports: [bool; 4],
    pub count: u8,
}

impl From<(PortSet, u8)> for Way {
    fn from((ports, count): (PortSet, u8)) -> Way {
        let ports = from_fn(|port| ports.contains(port as u8));
        Way { ports, count }
    }
}

impl From<flags::Entry> for Way {
    fn from(entry: flags::Entry) -> Way {
        let ports = entry.ports;
        let count = entry.cycle;
        Way { ports, count }
    }
}

// The ports as ascending digits, and the count.
impl fmt::Display for Way {
    fn fmt<W: fmt::Write>(&self, f: &mut fmt::Formatter<W>) -> fmt::Result {
        write!(f, "ports ")?;
        for (port, on) in self.ports.iter().enumerate() {
            if *on {
                write!(f, "{port}")?;
            }
        }
        let count = self.count;
        write!(f, " count {count}")
    }
}

/// The marks of a node's ports.
#[derive(Clone, Copy, PartialEq, Eq)]
pub struct Marks([Mark; 4]);

impl From<[Mark; 4]> for Marks {
    fn from(marks: [Mark; 4]) -> Marks {
        Marks(marks)
    }
}

// The mark that a direction stands for.
fn mark_of(direction: Direction) -> Mark {
    match direction {
        Direction::None => Mark::Unmarked,
        Direction::Up => Mark::Up,
        Direction::Down => Mark::Down,
    }
}

impl From<[Direction; 4]> for Marks {
    fn from(directions: [Direction; 4]) -> Marks {
        Marks(directions.map(mark_of))
    }
}

// Their letters.
impl fmt::Display for Marks {
    fn fmt<W: fmt::Write>(&self, f: &mut fmt::Formatter<W>) -> fmt::Result {
        for mark in self.0.iter() {
            let letter = char::from(mark.letter());
            write!(f, "{letter}")?;
        }
        Ok(())
    }
}

impl Marks {
    // Whether one of the ports is marked so.
    fn any(&self, mark: Mark, ports: &[bool; 4]) -> bool {
        self.0
            .iter()
            .zip(ports.iter())
            .any(|(own, on)| *on && *own == mark)
    }

    /// Whether the flags of a way came by an up port and by a down port at once.
    pub(crate) fn is_mixed(&self, way: &Way) -> bool {
        self.any(Mark::Up, &way.ports) && self.any(Mark::Down, &way.ports)
    }
}

/// The root that a serving node of the wall has.
pub(crate) fn wall_root<W: Wiring, C: Chooser>(wall: &Wall<W, C>, node: u8) -> Option<u8> {
    match wall.mode(node) {
        Ok(Mode::Serving { root }) => Some(root),
        _ => None,
    }
}

/// The marks of a node of the wall.
pub(crate) fn wall_marks<W: Wiring, C: Chooser>(wall: &Wall<W, C>, node: u8) -> Option<Marks> {
    wall.marks(node).ok().map(|marks| Marks::from(marks))
}

/// The wall's entry at a node for a destination.
pub(crate) fn wall_way<W: Wiring, C: Chooser>(wall: &Wall<W, C>, node: u8, to: u8) -> Option<Way> {
    wall.entry(node, to)
        .ok()
        .flatten()
        .map(|entry| Way::from(entry))
}

/// The net's directions of a node's ports, as marks.
pub(crate) fn net_marks(net: &Net, node: u8) -> Marks {
    let directions: [Direction; 4] = from_fn(|port| net.direction(node, port as u8));
    Marks::from(directions)
}

/// The net's entry at a node for a destination.
pub(crate) fn net_way(net: &Net, node: u8, to: u8) -> Option<Way> {
    net.entry(node, to).map(|entry| Way::from(entry))
}
