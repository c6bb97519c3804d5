//! What a broadcast runs over (the far ends of all ports) and what it leaves at each node.
ghost use Rattle.std.specs.Prelude.{◌≡◌, ◌≤◌, true};
ghost use Rattle.flood.specs.Fit.{all_fit};

use rules::Mark;

/// The marks of all ports, by node and port.
pub type Marks = [[Mark; 4]; 64];

/// The far end of each port, a node and a port of it, at place 4 * node + port; none where no
/// cable is.
#[derive(Clone, Copy)]
pub struct Ends {
    pub at: [Option<(u8, u8)>; 256],
    ghost in_range: { all_fit at ≡ true },
}

/// What a node knows of the owner's flag: it waits for one; it is deaf (the owner itself, or a
/// node that has an entry for the owner already); or it wrote the ports that got a flag in the
/// first cycle that brought one, and that cycle.
#[derive(Clone, Copy)]
pub enum Cell {
    Waiting,
    Deaf,
    Wrote { ports: [bool; 4], at: u8 },
}

/// What a broadcast runs over: how many nodes there are, the cables, the marks of all ports, and its owner.
#[derive(Clone, Copy)]
pub struct Wave {
    pub count: u8,
    pub ends: Ends,
    pub marks: Marks,
    pub owner: u8,
    ghost count_few: { count ≤ 64 },
}

/// The cells at the end of a broadcast and the number of cycles that reached a node.
#[derive(Clone, Copy)]
pub struct Spread {
    pub cells: [Cell; 64],
    pub cycles: u8,
}
