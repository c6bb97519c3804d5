//! How many packets stand at each port, kept up to date as packets come and go, so that no step
//! looks through all packets for each port.
ghost use Rattle.std.specs.Prelude.{◌≡◌, ◌<◌, not, List};
ghost use Rattle.rules.specs.declared.Packet.{Packet};
ghost use Rattle.rules.specs.Step.{taken};
ghost use Rattle.traffic.specs.Inside.{Inside};
ghost use Rattle.traffic.specs.View.{packets_view};
ghost use Rattle.traffic.specs.Occupied.{Counts, Room, CountedIn, Arrives, Departs};

use crate::types::{Flight, Occupancy};
use rules::Packet;

impl Occupancy {
    // The packets in flight, counted.
    pub(crate) fn of(flight: &Flight) -> Occupancy
        ensures { Counts result (packets_view flight.now) }
    {
        let mut occupancy = Occupancy {
            standing: [[0; 4]; 64],
        };
        for x in flight.packets() {
            occupancy.arrive(*x);
        }
        occupancy
    }

    // Two functions: one with a sign would need both contracts, and a test between them.
    pub(crate) fn arrive(&mut self, x: Packet)
        requires { (Inside x) × (Room self.old) }
        ensures { Arrives self.old x self.new }
    {
        if let Some(port) = x.standing {
            self.standing[x.node as usize][port as usize] += 1;
        }
    }

    pub(crate) fn depart(&mut self, x: Packet)
        requires { (Inside x) × (CountedIn self.old x) }
        ensures { Departs self.old x self.new }
    {
        if let Some(port) = x.standing {
            self.standing[x.node as usize][port as usize] -= 1;
        }
    }

    // Whether no packet stands at the port.
    #[tactic(auto, using(crate::proofs::Occupancies::empty_counted))]
    pub(crate) fn is_empty(&self, node: u8, port: u8) -> bool
        requires { (node < 64) × (port < 4) }
        ensures { (xs : List Packet) → Counts self.now xs → result ≡ not (taken node port xs) }
    {
        self.standing[node as usize][port as usize] == 0
    }
}
