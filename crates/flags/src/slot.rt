//! One slot: its owner may send a flag, and each node that gets one acts on it, cycle by cycle.

use crate::{Clock, Direction, Entry, Net, Node, Place};

/// The flags that come in at the ports in one cycle.
#[derive(Clone, Copy)]
struct Flags {
    /// For each node, the ports where one comes in, if any does.
    ports: [Option<[bool; 4]>; 64],
}

impl Flags {
    /// No flag anywhere.
    fn none() -> Flags {
        Flags { ports: [None; 64] }
    }

    /// A flag comes in at the place.
    fn put(&mut self, place: Place) {
        let ports = &mut self.ports[place.node as usize];
        ports.get_or_insert([false; 4])[place.port as usize] = true;
    }

    /// Whether a flag comes in at the place.
    fn has(&self, place: Place) -> bool {
        self.ports[place.node as usize].unwrap_or([false; 4])[place.port as usize]
    }
}

impl Net {
    /// Runs the next slot, of as many cycles as there are nodes.
    pub fn run_slot(&mut self) {
        let mut coming = self.open();
        for t in 1..=self.clock.count {
            self.clock.cycle = self.clock.cycle.saturating_add(1);
            if let Some(came) = coming {
                coming = self.step(t, &came);
            }
        }
        self.clock.owner = (self.clock.owner + 1) % self.clock.count;
    }

    /// The owner begins its slot. A recovering node takes its turn to broadcast. Any other one that has detected a failure
    /// becomes a root. The rest are silent. Answers the flags that come in in the first cycle.
    fn open(&mut self) -> Option<Flags> {
        let clock = self.clock;
        let owner = &mut self.nodes[clock.owner as usize];
        if !owner.is_recovering(clock) {
            if !owner.detected {
                return None;
            }
            owner.recover(clock, &[false; 4]);
        }
        let mut coming = Flags::none();
        owner.send(&[true; 4], &mut coming);
        Some(coming)
    }

    /// Cycle `t` of the slot, where the first is 1: each node that gets a flag acts on it. Answers the flags that come in in
    /// the next cycle, if any node forwards one.
    fn step(&mut self, t: u8, came: &Flags) -> Option<Flags> {
        let clock = self.clock;
        let mut coming = None;
        let nodes = &mut self.nodes[..clock.count as usize];
        for (number, (node, ports)) in nodes.iter_mut().zip(&came.ports).enumerate() {
            if let Some(ports) = ports {
                if node.root() == Some(clock.owner) {
                    node.settle_ties(number, ports, came);
                }
                if let Some(sends) = node.receive(clock, t, number, *ports) {
                    node.send(&sends, coming.get_or_insert(Flags::none()));
                }
            }
        }
        coming
    }
}

impl Node {
    /// Sends a flag on each of the ports that has a working link. It comes in at the other end in the next cycle.
    fn send(&self, ports: &[bool; 4], coming: &mut Flags) {
        for (port, sends) in self.ports.iter().zip(ports) {
            if *sends && let Some(far) = port.far {
                coming.put(far);
            }
        }
    }

    /// In the root's broadcast, a node that sends a flag through a port and gets one there in the same cycle is as far from
    /// the root as its neighbour: the node with the higher number marks the link up, and the other one down.
    fn settle_ties(&mut self, number: usize, ports: &[bool; 4], came: &Flags) {
        for (port, gets) in self.ports.iter_mut().zip(ports) {
            // What it sent through the port has come in at the other end.
            if *gets
                && let Some(far) = port.far
                && came.has(far)
            {
                port.mark = if number > far.node as usize {
                    Direction::Up
                } else {
                    Direction::Down
                };
            }
        }
    }

    /// A node gets flags on the given ports. One that is not recovering has them from a root, and begins to recover.
    /// One that has no entry for the owner yet writes it and forwards the flag. Any further flag is ignored.
    /// Answers the ports where the flag is forwarded.
    fn receive(
        &mut self,
        clock: Clock,
        t: u8,
        number: usize,
        ports: [bool; 4],
    ) -> Option<[bool; 4]> {
        if !self.is_recovering(clock) {
            self.recover(clock, &ports);
        }
        let owner = clock.owner as usize;
        if number == owner || self.table[owner].is_some() {
            return None;
        }
        self.table[owner] = Some(Entry { ports, cycle: t });
        Some(self.forward(&ports))
    }

    /// The node begins to recover: its table is emptied, and what it has detected is taken up.
    /// It marks the ports where the root's flag came in up, and those of its other links, where it will send the flag, down.
    fn recover(&mut self, clock: Clock, came: &[bool; 4]) {
        self.detected = false;
        self.member = Some(clock.membership());
        self.table = [None; 64];
        for (port, came) in self.ports.iter_mut().zip(came) {
            port.mark = if *came {
                Direction::Up
            } else if port.far.is_some() {
                Direction::Down
            } else {
                Direction::None
            };
        }
    }

    /// The ports where the node sends the flag on: those where it did not come in. Where it came in from an up port, it goes
    /// to no up port, since a packet on its way back would go down and then up.
    fn forward(&self, came: &[bool; 4]) -> [bool; 4] {
        let from_up = self
            .ports
            .iter()
            .zip(came)
            .any(|(port, came)| *came && port.mark == Direction::Up);
        // In place: of the number that from_fn hands to a closure no bound is known.
        let mut sends = [false; 4];
        for (sends, (port, came)) in sends.iter_mut().zip(self.ports.iter().zip(came)) {
            let allowed = match port.mark {
                Direction::None => false,
                Direction::Up => !from_up,
                Direction::Down => true,
            };
            *sends = allowed && !*came;
        }
        sends
    }
}
