//! What happens to one packet in a step.
ghost use Rattle.std.specs.Prelude.{◌≡◌, List};
ghost use Rattle.rules.specs.declared.Packet.{Packet};
ghost use Rattle.board.specs.View.{nodes_view};
ghost use Rattle.traffic.specs.Occupied.{Counts};
ghost use Rattle.traffic.specs.Choosing.{fate_view, landing, Crossed, Decided};

use crate::reads::{entry_at, mode_at};
use crate::types::{Fate, Scene};
use chooser::{Chooser, PortSet};
use rules::Packet;
use wiring::Wiring;

impl<W: Wiring> Scene<'_, W> {
    // The fate of a packet among the others, which the occupancy counts.
    #[tactic(auto, using(crate::proofs::Decisions::decided_idle, crate::proofs::Decisions::decided_arrived, crate::proofs::Decisions::decided_lost))]
    pub(crate) fn decide<C: Chooser>(&self, chooser: &mut C, x: Packet) -> Fate
        ensures { (others : List Packet) → Counts self.now.occupancy.now others → Decided C.Chooser.picks (W.Wiring.layout self.now.wiring.now) (nodes_view self.now.board.now) others x (fate_view result) chooser.old chooser.new }
    {
        if !mode_at(self.board, x.node).serves() {
            return Fate::Waits;
        }
        if x.node == x.destination {
            return Fate::Delivered;
        }
        match entry_at(self.board, x.node, x.destination) {
            None => Fate::Returned,
            Some(way) => self.cross(chooser, x.node, self.offered(x, &way.ports)),
        }
    }

    // Whether and where a packet at the node crosses a cable, with these ports offered.
    #[tactic(auto, using(crate::proofs::Decisions::none_offered, crate::proofs::Decisions::crosses_not))]
    fn cross<C: Chooser>(&self, chooser: &mut C, node: u8, offer: [bool; 4]) -> Fate
        ensures { Crossed C.Chooser.picks (W.Wiring.layout self.now.wiring.now) node offer (fate_view result) chooser.old chooser.new }
    {
        let ports = PortSet::from(offer);
        if ports.is_empty() {
            return Fate::Waits;
        }
        landed(self.wiring.far_end(node, ask(chooser, ports)))
    }
}

// Where a packet comes to by the picked port.
fn landed(far: Option<(u8, u8)>) -> Fate
    ensures { result ≡ landing far }
{
    match far {
        None => Fate::Waits,
        Some((node, port)) => Fate::Crosses { node, port },
    }
}

// The chooser's own pick from the ports offered.
fn ask<C: Chooser>(chooser: &mut C, ports: PortSet) -> u8
    ensures { C.Chooser.picks chooser.old ports result chooser.new }
{
    chooser.pick(ports)
}
