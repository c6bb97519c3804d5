//! What the nodes of a wall hold: their records, and the ways in their routing tables.
ghost use Rattle.std.specs.Prelude.{◌≡◌, ◌≤◌, length};

use rules::{Mark, Mode};

/// The way to a destination: the ports that lead there and the number of cables to cross.
#[derive(Clone, Copy, PartialEq, Eq, Debug)]
pub struct Way {
    pub ports: [bool; 4],
    pub count: u8,
}

/// One node's record: what it is doing, whether its hand is up, which of its cables are live,
/// the marks of its ports, and its row, which has the way to each destination, if there is one.
#[derive(Clone, Copy)]
pub struct Node {
    pub mode: Mode,
    pub hand: bool,
    pub live: [bool; 4],
    pub marks: [Mark; 4],
    pub row: [Option<Way>; 64],
}

/// The node records of a wall with `count` nodes; those from `count` on are never read.
#[derive(Clone, Copy)]
pub struct Board {
    pub count: u8,
    pub nodes: [Node; 64],
    ghost count_some: { 1 ≤ count },
    ghost count_few: { count ≤ 64 },
    ghost nodes_long: { length nodes ≡ 64 },
}
