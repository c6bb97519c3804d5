//! A board at power-up, and what can be read from one.
ghost use Rattle.std.specs.Prelude.{◌≡◌, ℕ, ◌<◌, ◌≤◌, List, length, is_some};
ghost use Rattle.rules.specs.Ports.{ports_where, table};
ghost use Rattle.rules.specs.State.{fresh, node_of, entry_of};
ghost use Rattle.flood.specs.View.{wired, far_in};
ghost use Rattle.board.specs.View.{entry_view, node_view, nodes_view, nodes_at};

use crate::types::{Board, Node, Way};
use flood::Ends;
use rules::{Mark, Mode};
use std::array;

/// A node before it is wired: new, its hand up, no cable, no mark, no entry.
const NODE: Node = Node {
    mode: Mode::New,
    hand: true,
    live: [false; 4],
    marks: [Mark::Unmarked; 4],
    row: [None; 64],
};

// The ports of a node that have a cable.
fn cables(ends: &Ends, node: u8) -> [bool; 4]
    requires { node < 64 }
    ensures { result ≡ ports_where (λ p. is_some (far_in ends.now.at node p)) }
{
    array::from_fn(
        |port| -> bool
            requires { port < 4 }
            ensures { result ≡ is_some (far_in ends.entry.now.at node port) }
        { ends.far_end(node, port as u8).is_some() },
    )
}

fn new_node(ends: &Ends, node: u8) -> Node
    requires { node < 64 }
    ensures { (count : ℕ) → count ≤ 64 → node_view count result ≡ fresh (wired count ends.now.at) node }
{
    Node {
        live: cables(ends, node),
        ..NODE
    }
}

impl Board {
    /// The board at power-up: every node new with its hand up, all cables live, no port marked,
    /// all rows empty. Of a count outside 1 to 64 nothing is said.
    pub fn power_up(ends: &Ends, count: u8) -> Board
        ensures { 1 ≤ count → count ≤ 64 → (result.count ≡ count) × (nodes_view result ≡ table count (fresh (wired count ends.now.at))) }
    {
        let nodes = array::from_fn(|node| new_node(ends, node as u8));
        let mut board = Board { count: 1, nodes };
        board.fit(count);
        board
    }

    /// Sets the number of nodes; the records stay. A count outside 1 to 64 is passed over.
    pub fn fit(&mut self, count: u8)
        ensures nodes { self.new.nodes ≡ self.old.nodes }
        ensures count { 1 ≤ count → count ≤ 64 → self.new.count ≡ count }
    {
        if (1..=64).contains(&count) {
            self.count = count;
        }
    }
}

// Questions. They read the records alone, whatever the count, so that a wall asks about the
// nodes that its wiring has.
impl Board {
    /// A node's record, by what it stands for in a wall of so many nodes.
    #[tactic(auto, using(crate::proofs::Records::read_at))]
    pub fn node(&self, node: u8) -> Node
        ensures { (count : ℕ) → node < count → count ≤ 64 → node_view count result ≡ node_of (nodes_at count self.now.nodes) node }
    {
        match self.nodes.get(node as usize) {
            Some(held) => *held,
            None => NODE,
        }
    }

    /// A node's entry for a destination.
    #[tactic(auto, using(crate::proofs::Records::entry_at))]
    pub fn entry(&self, node: u8, destination: u8) -> Option<Way>
        ensures { (count : ℕ) → node < count → destination < count → count ≤ 64 → entry_view result ≡ entry_of (nodes_at count self.now.nodes) node destination }
    {
        let held = self.nodes.get(node as usize)?;
        *held.row.get(destination as usize)?
    }
}
