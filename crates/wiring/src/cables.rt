//! The cable list: a wiring that a wall file spells. It is a table of far ends, so that a question
//! is one read. specs/Cables.antt says what a table means.
ghost use Rattle.std.specs.Prelude.{◌≡◌, ◌<◌, ◌≤◌, List, length};
ghost use Rattle.wiring.specs.Layout.{Sound};
ghost use Rattle.wiring.specs.Cables.{slot, bare, cabled, lone};
ghost use Rattle.wiring.specs.Sound.{sound_again};

use crate::Wiring;

/// A wiring as a list of cables. Every one that there is keeps the facts of a wiring.
#[derive(Clone, Copy)]
pub struct CableList {
    pub(crate) count: u8,
    pub(crate) ends: [Option<(u8, u8)>; 256],
    ghost few: { count ≤ 64 },
    ghost size: { length ends ≡ 256 },
    ghost sound: { ∥ Sound (cabled count ends) ∥₁ },
}

// The place of an end in the table.
pub(crate) fn slot_of(end: (u8, u8)) -> usize
    requires node { end.0 < 64 }
    requires port { end.1 < 4 }
    ensures value { result ≡ slot end }
    ensures bound { result < 256 }
{
    4 * end.0 as usize + end.1 as usize
}

// The table of no cable.
fn no_cables() -> [Option<(u8, u8)>; 256]
    ensures { result ≡ bare }
{
    [None; 256]
}

impl CableList {
    /// One node and no cable: what a list is before any file.
    pub fn new() -> CableList
        ensures { cabled result.count result.ends ≡ lone }
    {
        CableList {
            count: 1,
            ends: no_cables(),
        }
    }
}

impl Wiring for CableList {
    ghost layout = { λ l. cabled l.count l.ends };

    ghost sound = { λ l. sound_again (cabled l.count l.ends) l.sound };

    fn node_count(&self) -> u8 {
        self.count
    }

    fn far_end(&self, node: u8, port: u8) -> Option<(u8, u8)> {
        if node < self.node_count() && port < 4 {
            self.ends[slot_of((node, port))]
        } else {
            None
        }
    }
}
