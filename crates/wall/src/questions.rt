//! What can be asked about a wall. A question changes nothing.
ghost use Rattle.std.specs.Prelude.{◌≡◌, ℕ, ◌<◌, ◌≤◌, length, MatchResult, Decides};
ghost use Rattle.std.specs.List.{slice_get};
ghost use Rattle.rules.specs.declared.Refusal.TheVariants.{NodeOutOfRange};
ghost use Rattle.rules.specs.State.{node_of, entry_of};
ghost use Rattle.rules.specs.Promise.{Calm};
ghost use Rattle.board.specs.View.{entry_view, node_view, nodes_at};
ghost use Rattle.wall.specs.Answers.{asked_of, entry_pair, entry_answer, Rests};
ghost use Rattle.wall.specs.View.{state_of};

use crate::wall::Wall;
use board::{Node, Way};
use chooser::{Chooser, PortSet};
use rules::{Mark, Mode, Packet, Refusal};
use wiring::Wiring;

// A way as its set of ports and its count together.
fn pair(way: Option<Way>) -> Option<(PortSet, u8)>
    ensures { result ≡ entry_pair (entry_view way) }
{
    let way = way?;
    Some((PortSet::from(way.ports), way.count))
}

#[tactic(auto, unfolding(crate::specs::View::state_of))]
impl<W: Wiring, C: Chooser> Wall<W, C> {
    // Refuses a node that the wall does not have.
    fn check_node(&self, node: u8) -> Result<(), Refusal>
        ensures { MatchResult result (λ _. node < (W.Wiring.layout self.now.wiring).count) (λ reason. (reason ≡ NodeOutOfRange) × ((W.Wiring.layout self.now.wiring).count ≤ node)) }
    {
        if node >= self.wiring.node_count() {
            return Err(Refusal::NodeOutOfRange);
        }
        Ok(())
    }

    // A node's record, or the refusal of a node that the wall does not have.
    #[tactic(auto, using(board::proofs::Records::read_at), unfolding(crate::specs::View::state_of))]
    fn held(&self, node: u8) -> Result<&Node, Refusal>
        ensures { MatchResult result (λ held. (node < (W.Wiring.layout self.now.wiring).count) × (node_view (W.Wiring.layout self.now.wiring).count held.now ≡ node_of (state_of (W.Wiring.layout self.now.wiring) self.now.core).nodes node)) (λ reason. (reason ≡ NodeOutOfRange) × ((W.Wiring.layout self.now.wiring).count ≤ node)) }
    {
        self.check_node(node)?;
        Ok(&self.core.board.nodes[node as usize])
    }

    /// How many nodes the wall has.
    pub fn node_count(&self) -> u8
        ensures { result ≡ (W.Wiring.layout self.now.wiring).count }
    {
        self.wiring.node_count()
    }

    /// What a node is doing. Refused: node out of range (12).
    pub fn mode(&self, node: u8) -> Result<Mode, Refusal>
        ensures { result ≡ asked_of (W.Wiring.layout self.now.wiring) node (node_of (state_of (W.Wiring.layout self.now.wiring) self.now.core).nodes node).mode }
    {
        Ok(self.held(node)?.mode)
    }

    /// Whether a node's hand is up. Refused: node out of range (12).
    pub fn is_hand_up(&self, node: u8) -> Result<bool, Refusal>
        ensures { result ≡ asked_of (W.Wiring.layout self.now.wiring) node (node_of (state_of (W.Wiring.layout self.now.wiring) self.now.core).nodes node).hand }
    {
        Ok(self.held(node)?.hand)
    }

    /// The marks of a node's ports. Refused: node out of range (12).
    pub fn marks(&self, node: u8) -> Result<[Mark; 4], Refusal>
        ensures { result ≡ asked_of (W.Wiring.layout self.now.wiring) node (node_of (state_of (W.Wiring.layout self.now.wiring) self.now.core).nodes node).marks }
    {
        Ok(self.held(node)?.marks)
    }

    /// A node's entry for a destination: the ports that lead there and the number of cables to
    /// cross, or nothing. Refused: node or destination out of range (12).
    pub fn entry(&self, node: u8, destination: u8) -> Result<Option<(PortSet, u8)>, Refusal>
        ensures { result ≡ entry_answer (W.Wiring.layout self.now.wiring) node destination (entry_of (state_of (W.Wiring.layout self.now.wiring) self.now.core).nodes node destination) }
    {
        self.check_node(node)?;
        self.check_node(destination)?;
        Ok(pair(self.core.board.entry(node, destination)))
    }

    /// The owner of the next slot.
    pub fn next_owner(&self) -> u8
        ensures { result ≡ (state_of (W.Wiring.layout self.now.wiring) self.now.core).owner }
    {
        self.core.owner
    }

    /// How many packets are in flight.
    pub fn in_flight(&self) -> usize
        ensures { result ≡ length (state_of (W.Wiring.layout self.now.wiring) self.now.core).packets }
    {
        self.core.flight.in_flight()
    }

    /// The packet with so many others in flight before it, by rising number.
    pub fn packet(&self, i: usize) -> Option<Packet>
        ensures { result ≡ slice_get (state_of (W.Wiring.layout self.now.wiring) self.now.core).packets i }
    {
        self.core.flight.packet(i)
    }

    /// Whether the wall is calm: no hand is up and no node recovers.
    pub fn calm(&self) -> bool
        ensures { Decides result (Calm (W.Wiring.layout self.now.wiring) (state_of (W.Wiring.layout self.now.wiring) self.now.core)) }
    {
        let board = &self.core.board;
        (0..self.wiring.node_count()).all(
            |node: u8| -> bool
                ensures { (count : ℕ) → node < count → count ≤ 64 → Decides result (Rests (node_of (nodes_at count board.entry.now.nodes) node)) }
            {
                let held = board.node(node);
                !held.hand && !held.mode.recovers()
            },
        )
    }
}
