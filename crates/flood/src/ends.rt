//! The far ends of all ports, asked from a wiring.
ghost use Rattle.std.specs.Prelude.{◌≡◌, ◌<◌, ◌/◌, ◌%◌};
ghost use Rattle.flood.specs.View.{wired, far_in};

use crate::types::Ends;
use std::array;
use wiring::Wiring;

impl Ends {
    /// The far ends of all ports of a wiring.
    pub fn of<W: Wiring>(wiring: &W) -> Ends
        ensures { wired (W.Wiring.layout wiring.now).count result.at ≡ W.Wiring.layout wiring.now }
    {
        let at = array::from_fn(
            |place| -> Option<(u8, u8)>
                requires { place < 256 }
                ensures { result ≡ (W.Wiring.layout wiring.entry.now).far (place / 4) (place % 4) }
            { wiring.far_end((place / 4) as u8, (place % 4) as u8) },
        );
        Ends { at }
    }

    /// The far end of a port of a node; out of range nothing.
    pub fn far_end(&self, node: u8, port: u8) -> Option<(u8, u8)>
        ensures { result ≡ far_in self.now.at node port }
    {
        if (node < 64) & (port < 4) {
            self.at[4 * node as usize + port as usize]
        } else {
            None
        }
    }
}
