//! A wall that had time to make its tables.
ghost use Rattle.std.specs.Prelude.{◌≡◌, ◌-◌, ◌*◌, ◌≤◌};
ghost use Rattle.wall.specs.View.{state_of};
ghost use Rattle.page.specs.Pages.{settled_state};

use chooser::Chooser;
use wall::Wall;
use wiring::Wiring;

// How many slots a wall of so many nodes gets.
fn slots_for(count: u8) -> u8
    requires some { 1 ≤ count }
    requires few { count ≤ 64 }
    ensures { result ≡ 2 * count - 1 }
{
    2 * count - 1
}

/// A wall of N nodes that was powered up and had 2N - 1 slots.
///
/// ```
/// let wall = settled(list, LowestPort::new());
/// ```
pub fn settled<W: Wiring, C: Chooser>(wiring: W, chooser: C) -> Wall<W, C>
    ensures wiring { result.wiring ≡ wiring }
    ensures state { state_of (W.Wiring.layout wiring) result.core ≡ settled_state (W.Wiring.layout wiring) }
{
    let mut wall = Wall::power_up(wiring, chooser);
    for _ in 0..slots_for(wall.node_count()) {
        let _ = wall.slot();
    }
    wall
}
