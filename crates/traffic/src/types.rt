//! The places of the packets in flight.
ghost use Rattle.std.specs.Prelude.{◌≡◌, ℕ, ◌<◌, ◌≤◌, [], length, slice_index_or};
ghost use Rattle.traffic.specs.Inside.{Inside, nowhere};

use board::Board;
use rules::{Packet, StepCounts};

/// The packets in flight by rising number, in the first `count` places, and the last number
/// given out. What stands in the places from `count` on is left over and never read.
#[derive(Clone, Copy)]
pub struct Flight {
    // Fixed memory, since there is no heap; what is behind count is left over.
    pub(crate) places: [Packet; 256],
    pub(crate) count: usize,
    pub(crate) last: u32,
    ghost few: { count ≤ 256 },
    ghost long: { length places ≡ 256 },
    ghost inside: { (k : ℕ) → Inside (slice_index_or places k nowhere) },
}

/// How many packets stand at each port, node by node.
#[derive(Drop)]
pub(crate) struct Occupancy {
    pub(crate) standing: [[u16; 4]; 64],
    ghost full: { length standing ≡ 64 },
    ghost four: { (k : ℕ) → k < 64 → length (slice_index_or standing k []) ≡ 4 },
}

/// What a step looks at for a packet: the node records, the wiring, and how many other packets
/// stand at each port.
// Which packets the occupancy counts is no part of a scene, so each clause says it.
#[derive(Drop)]
pub(crate) struct Scene<'a, W> {
    pub(crate) board: &'a Board,
    pub(crate) wiring: &'a W,
    pub(crate) occupancy: &'a Occupancy,
}

/// What happens to a packet in a step.
#[derive(Clone, Copy)]
pub(crate) enum Fate {
    Waits,
    Delivered,
    Returned,
    Crosses { node: u8, port: u8 },
}

/// How far a step has come: which packets stand at each port, how many of those taken stay in
/// flight, and the counts.
#[derive(Drop)]
pub(crate) struct Sweep {
    pub(crate) occupancy: Occupancy,
    pub(crate) stayed: usize,
    pub(crate) counts: StepCounts,
}
