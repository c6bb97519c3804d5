//! The plain part of a wall: node records, packets in flight and the owner of the next slot.
ghost use Rattle.std.specs.Prelude.{◌<◌};

use board::Board;
use traffic::Flight;

/// What a wall holds beside its wiring and its chooser.
#[derive(Clone, Copy)]
pub struct Core {
    pub board: Board,
    pub flight: Flight,
    pub owner: u8,
    ghost owner_few: { owner < 64 },
}
