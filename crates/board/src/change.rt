//! Changes of one node record at a time: cuts and raised hands.
ghost use Rattle.std.specs.Prelude.{◌≡◌, ◌==◌, ◌<◌, ◌≤◌, ◌&&◌, not, false, [], length, None, slice_index_or};
ghost use Rattle.rules.specs.declared.Refusal.TheVariants.{AlreadyCut};
ghost use Rattle.rules.specs.State.{live_of};
ghost use Rattle.rules.specs.Calls.{refuse_if, is_dead, changed, raised, cut_end, cut_refused, after_cut, hand_refused, after_hand};
ghost use Rattle.flood.specs.View.{wired};
ghost use Rattle.board.specs.Settled.{Settled};
ghost use Rattle.board.specs.View.{with_hand_up, Becomes, nodes_view, board_state};

use crate::types::{Board, Node};
use flood::Ends;
use rules::Refusal;
use std::array;

// A record's hand goes up, and nothing else of it changes.
fn hand_up(held: &mut Node)
    ensures { held.new ≡ with_hand_up held.old }
{
    held.hand = true;
}

impl Board {
    // One hand up, and nothing else changed.
    fn raise(&mut self, node: u8)
        requires { node < self.old.count }
        ensures { Becomes self.old self.new (changed raised node (nodes_view self.old)) }
    {
        hand_up(&mut self.nodes[node as usize]);
    }

    // One end of a cut cable: the cable is dead there and the hand goes up.
    fn sever(&mut self, node: u8, port: u8)
        requires { node < self.old.count }
        ensures { Becomes self.old self.new (changed (cut_end port) node (nodes_view self.old)) }
    {
        let held = &mut self.nodes[node as usize];
        hand_up(held);
        let live = held.live;
        held.live = array::from_fn(
            |other| -> bool
                requires { other < 4 }
                ensures { result ≡ (slice_index_or live other false && not (other == port)) }
            { live[other] & (other != port as usize) },
        );
    }

    // Whether a port's cable is dead, or never was.
    #[tactic(auto, using(crate::proofs::Records::live_read))]
    fn is_dead(&self, node: u8, port: u8) -> bool
        requires { (node < self.now.count) × (port < 4) }
        ensures { result ≡ is_dead (live_of (nodes_view self.now) node port) }
    {
        let live = self.nodes[node as usize].live[port as usize];
        !live
    }

    // Cuts the cable between two ports, unless it is dead already.
    fn cut_cable(&mut self, node: u8, port: u8, far: (u8, u8)) -> Result<(), Refusal>
        requires { (node < self.old.count) × (port < 4) }
        ensures rule { Settled (refuse_if (is_dead (live_of (nodes_view self.old) node port)) AlreadyCut None) result (λ _. nodes_view self.new ≡ changed (cut_end far.1) far.0 (changed (cut_end port) node (nodes_view self.old))) (self.new ≡ self.old) }
        // count by itself, since callers cite it beside the other clauses.
        ensures count { self.new.count ≡ self.old.count }
    {
        if self.is_dead(node, port) {
            return Err(Refusal::AlreadyCut);
        }
        self.sever(node, port);
        if far.0 < self.count {
            self.sever(far.0, far.1);
        }
        Ok(())
    }

    /// Raises a node's hand. A hand raised a second time is accepted and alters nothing.
    pub fn hand(&mut self, node: u8) -> Result<(), Refusal>
        ensures rule { Settled (hand_refused (wired self.old.count []) node) result (λ _. nodes_view self.new ≡ (after_hand (board_state self.old) node).nodes) (self.new ≡ self.old) }
        // count by itself, since callers cite it beside the other clauses.
        ensures count { self.new.count ≡ self.old.count }
    {
        if node >= self.count {
            return Err(Refusal::NodeOutOfRange);
        }
        self.raise(node);
        Ok(())
    }

    /// Cuts the cable at a port of a node: it is dead from then on and the hands of both ends go
    /// up. Marks and rows stay.
    pub fn cut(&mut self, ends: &Ends, node: u8, port: u8) -> Result<(), Refusal>
        ensures rule { Settled (cut_refused (wired self.old.count ends.now.at) (board_state self.old) node port) result (λ _. nodes_view self.new ≡ (after_cut (wired self.old.count ends.now.at) (board_state self.old) node port).nodes) (self.new ≡ self.old) }
        // count by itself, since callers cite it beside the other clauses.
        ensures count { self.new.count ≡ self.old.count }
    {
        if node >= self.count {
            return Err(Refusal::NodeOutOfRange);
        }
        if port >= 4 {
            return Err(Refusal::PortOutOfRange);
        }
        let Some(far) = ends.far_end(node, port) else {
            return Err(Refusal::NoCable);
        };
        self.cut_cable(node, port, far)
    }
}
