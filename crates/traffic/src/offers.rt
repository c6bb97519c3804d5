//! Which ports a step offers to a packet.
ghost use Rattle.std.specs.Prelude.{◌≡◌, ◌<◌, List};
ghost use Rattle.rules.specs.declared.Packet.{Packet};
ghost use Rattle.rules.specs.Ports.{ports_where};
ghost use Rattle.rules.specs.Step.{turn, permitted, far_port_empty};
ghost use Rattle.board.specs.View.{nodes_view};
ghost use Rattle.traffic.specs.Occupied.{Counts};
ghost use Rattle.traffic.specs.Offers.{port_offered};

use crate::reads::{is_live, mark_at};
use crate::types::Scene;
use rules::{Mark, Packet};
use std::array;
use wiring::Wiring;

impl<W: Wiring> Scene<'_, W> {
    // The ports offered to a packet at a serving node whose entry for its destination has these ports.
    pub(crate) fn offered(&self, x: Packet, ports: &[bool; 4]) -> [bool; 4]
        ensures { (others : List Packet) → Counts self.now.occupancy.now others → result ≡ ports_where (port_offered (W.Wiring.layout self.now.wiring.now) (nodes_view self.now.board.now) others x ports.now) }
    {
        array::from_fn(|port| self.is_offered(x, ports, port as u8))
    }

    fn is_offered(&self, x: Packet, ports: &[bool; 4], port: u8) -> bool
        requires { port < 4 }
        ensures { (others : List Packet) → Counts self.now.occupancy.now others → result ≡ port_offered (W.Wiring.layout self.now.wiring.now) (nodes_view self.now.board.now) others x ports.now port }
    {
        ports[port as usize]
            && self.may_turn(x, port)
            && is_live(self.board, x.node, port)
            && self.is_far_port_empty(x.node, port)
    }

    #[tactic(auto, unfolding(rules::specs::Step::permitted))]
    fn may_turn(&self, x: Packet, port: u8) -> bool
        ensures { result ≡ permitted (nodes_view self.now.board.now) x.node x.standing port }
    {
        let to = mark_at(self.board, x.node, port);
        match x.standing {
            None => to.is_marked(),
            Some(from) => is_turn(mark_at(self.board, x.node, from), to),
        }
    }

    #[tactic(auto, unfolding(rules::specs::Step::far_port_empty))]
    fn is_far_port_empty(&self, node: u8, port: u8) -> bool
        ensures { (others : List Packet) → Counts self.now.occupancy.now others → result ≡ far_port_empty (W.Wiring.layout self.now.wiring.now) others node port }
    {
        match self.wiring.far_end(node, port) {
            None => false,
            Some((far_node, far_port)) => self.occupancy.is_empty(far_node, far_port),
        }
    }
}

// Whether a packet may come in by one port and leave by the other.
#[tactic(auto, unfolding(rules::specs::Step::turn))]
fn is_turn(from: Mark, to: Mark) -> bool
    ensures { result ≡ turn from to }
{
    from.is_marked() && to.is_marked() && !(from.is_up() && to.is_up())
}
