//! A cycle-by-cycle simulator of a distributed network reconfiguration.
//!
//! Each node has four ports. A cable joins two ports of two nodes, and carries one flag wire each way.
//! All nodes share a cycle counter. Time is cut into slots of as many cycles as there are nodes, and the slots go round:
//! node 0, node 1, .., the last node, node 0 again. In a slot only its owner begins a broadcast, so that a receiver knows
//! from the time alone whose flag it has.
//!
//! A node that has detected a failure and is not recovering becomes a root in its own slot. Each node that its flag reaches
//! recovers from then on: it empties its routing table, marks its ports up (towards the root) or down, and broadcasts a flag
//! of its own in its next slot. After as many cycles as the square of the number of nodes it works normally again.
#![tactic(auto)]

ghost use Rattle.std.specs.Prelude.{◌<◌, ◌≤◌};

use std::array::from_fn;

mod slot;
#[cfg(test)]
mod tests;

/// What a node is doing.
#[derive(Clone, Copy, PartialEq, Eq, Debug)]
pub enum Mode {
    /// It has never taken part in a reconfiguration.
    Unconfigured,
    /// It takes part in a reconfiguration that is not over for it.
    Recovering,
    /// The last reconfiguration that it took part in is over for it.
    Normal,
}

/// How a node has marked one of its ports.
// Not marked is one of three marks, printed as one, and not the want of a mark.
#[derive(Clone, Copy, PartialEq, Eq, Debug)]
pub enum Direction {
    /// Not marked: no working link, or no reconfiguration yet.
    None,
    /// Towards the root.
    Up,
    /// Away from the root.
    Down,
}

/// How a node reaches a destination.
#[derive(Clone, Copy, PartialEq, Eq, Debug)]
pub struct Entry {
    /// The ports on which the flags of the destination's broadcast first arrived.
    pub ports: [bool; 4],
    /// The cycle of that arrival, which is 1 at a direct neighbour of the destination.
    pub cycle: u8,
}

/// A network of 1 to 64 nodes, at the boundary between two slots.
#[derive(Clone, Copy)]
pub struct Net {
    /// The time.
    clock: Clock,
    /// The nodes. Those from the number of nodes on have no cable, and never do anything.
    // All 64: a net is copied as a value, which no list of the kit is.
    nodes: [Node; 64],
}

/// What each node knows of the time.
#[derive(Clone, Copy)]
struct Clock {
    /// The number of nodes.
    count: u8,
    /// The cycles that have passed.
    cycle: u64,
    /// The node that the slot belongs to; between two slots, the one that the next belongs to.
    owner: u8,
    ghost count_in_range: { count ≤ 64 },
    ghost owner_in_range: { owner < count },
}

/// What one node knows.
#[derive(Clone, Copy)]
struct Node {
    /// Whether it has detected a failure that no reconfiguration has taken up.
    detected: bool,
    /// The last reconfiguration that it took part in.
    member: Option<Membership>,
    /// Its four ports.
    ports: [Port; 4],
    /// Its routing table, by destination.
    table: [Option<Entry>; 64],
}

/// A node's part in a reconfiguration.
#[derive(Clone, Copy)]
struct Membership {
    /// The node that began the reconfiguration.
    root: u8,
    /// The cycle from which the node works normally again.
    resume: u64,
}

/// A port of a node.
#[derive(Clone, Copy)]
struct Port {
    /// The other end of its working cable.
    far: Option<Place>,
    /// How it is marked.
    mark: Direction,
}

/// Where a cable ends: a port of one of the nodes that there can be.
#[derive(Clone, Copy, PartialEq, Eq)]
struct Place {
    /// The node's number.
    node: u8,
    /// The port's number at the node.
    port: u8,
    ghost node_in_range: { node < 64 },
    ghost port_in_range: { port < 4 },
}

impl Net {
    /// The network of `count` nodes at power-up. `ends` has, at 4 * node + port, the node and the port at the other end
    /// of the cable there.
    ///
    /// A count outside 1 to 64 is brought to the nearest of these. A cable is left out where an end is out of range,
    /// where its two ends do not name each other, or where both are of one node.
    pub fn new(count: u8, ends: &[Option<(u8, u8)>; 256]) -> Net {
        let count = count.clamp(1, 64);
        Net {
            clock: Clock {
                count,
                cycle: 0,
                owner: 0,
            },
            nodes: from_fn(|node| Node {
                detected: node < count as usize,
                member: None,
                ports: from_fn(|port| Port {
                    far: cable_at(count, ends, node as u8, port as u8),
                    mark: Direction::None,
                }),
                table: [None; 64],
            }),
        }
    }

    /// The link at the port fails, and the nodes at its two ends detect it. Nothing happens where there is no working link.
    pub fn fail(&mut self, node: u8, port: u8) {
        if let Some(far) = self.lose(node, port) {
            self.lose(far.node, far.port);
        }
    }

    /// One end of a failed link: the port carries and marks nothing any more, and its node has detected the failure.
    /// Answers the other end.
    fn lose(&mut self, node: u8, port: u8) -> Option<Place> {
        let node = self.nodes.get_mut(node as usize)?;
        let port = node.ports.get_mut(port as usize)?;
        let far = port.far.take()?;
        port.mark = Direction::None;
        node.detected = true;
        Some(far)
    }

    /// Whether nothing is left to do: no detected failure waits for a reconfiguration, and no node is recovering.
    pub fn settled(&self) -> bool {
        self.nodes
            .iter()
            .all(|node| !node.detected && !node.is_recovering(self.clock))
    }

    /// The root of the last reconfiguration that the node took part in.
    pub fn root(&self, node: u8) -> Option<u8> {
        self.nodes.get(node as usize)?.root()
    }

    /// What the node is doing.
    pub fn mode(&self, node: u8) -> Mode {
        let member = self.nodes.get(node as usize).and_then(|node| node.member);
        match member {
            None => Mode::Unconfigured,
            Some(member) if member.is_recovering(self.clock) => Mode::Recovering,
            Some(_) => Mode::Normal,
        }
    }

    /// How the node has marked the port.
    pub fn direction(&self, node: u8, port: u8) -> Direction {
        self.nodes
            .get(node as usize)
            .and_then(|node| node.ports.get(port as usize))
            .map_or(Direction::None, |port| port.mark)
    }

    /// How the node reaches the destination, where its table has that. A node has no entry for itself.
    pub fn entry(&self, node: u8, destination: u8) -> Option<Entry> {
        *self
            .nodes
            .get(node as usize)?
            .table
            .get(destination as usize)?
    }

    /// How many cycles have passed since power-up.
    pub fn cycle(&self) -> u64 {
        self.clock.cycle
    }

    /// The node that the next slot belongs to.
    pub fn owner(&self) -> u8 {
        self.clock.owner
    }

    /// The number of nodes.
    pub fn count(&self) -> u8 {
        self.clock.count
    }
}

impl Clock {
    /// The part of a node that begins to recover now, by a flag of the owner. It works normally again after as many cycles
    /// as the square of the number of nodes.
    fn membership(self) -> Membership {
        let count = self.count as u64;
        Membership {
            root: self.owner,
            resume: self.cycle.saturating_add(count * count),
        }
    }
}

impl Membership {
    /// Whether the node is recovering.
    fn is_recovering(self, clock: Clock) -> bool {
        clock.cycle < self.resume
    }
}

impl Node {
    /// The root of the last reconfiguration that the node took part in.
    fn root(&self) -> Option<u8> {
        Some(self.member?.root)
    }

    /// Whether the node is recovering.
    fn is_recovering(&self, clock: Clock) -> bool {
        self.member
            .is_some_and(|member| member.is_recovering(clock))
    }
}

impl Place {
    /// The port of the node, where there can be such a node and port.
    fn new(node: u8, port: u8) -> Option<Place> {
        if node < 64 && port < 4 {
            Some(Place { node, port })
        } else {
            None
        }
    }
}

/// The other end of the cable at the port, where both ends name each other and are of two nodes.
fn cable_at(count: u8, ends: &[Option<(u8, u8)>; 256], node: u8, port: u8) -> Option<Place> {
    let here = Place::new(node, port)?;
    let far = far_place(count, ends, here)?;
    let back = far_place(count, ends, far)?;
    (back == here && far.node != here.node).then_some(far)
}

/// The place that the end at `here` names, where both are of nodes that there are.
fn far_place(count: u8, ends: &[Option<(u8, u8)>; 256], here: Place) -> Option<Place> {
    let (node, port) = ends[4 * here.node as usize + here.port as usize]?;
    Place::new(node, port).filter(|far| here.node < count && far.node < count)
}
