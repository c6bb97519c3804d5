//! A cable between two ends.

/// A cable, as a wall file has it: it joins a node's port to another node's. An end is a node and a
/// port.
#[derive(Clone, Copy, PartialEq, Eq, Debug)]
pub struct Cable {
    /// The end that the file has first: a node and a port.
    pub start: (u8, u8),
    /// The other end.
    pub end: (u8, u8),
}
