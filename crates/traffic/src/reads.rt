//! What the records of a board say of a node and its ports, with the empty case past the last
//! node, port or destination.
ghost use Rattle.std.specs.Prelude.{◌≡◌, MatchOption};
ghost use Rattle.rules.specs.State.{absent, node_of, mark_of, live_of, entry_of};
ghost use Rattle.board.specs.View.{node_view, nodes_view, entry_view};

use board::{Board, Node, Way};
use rules::{Mark, Mode};

// The record of a node, if there is such a node.
fn node_at(board: &Board, node: u8) -> Option<&Node>
    ensures { MatchOption result (node_of (nodes_view board.now) node ≡ absent) (λ n. node_of (nodes_view board.now) node ≡ node_view board.now.count n.now) }
{
    board.nodes[..board.count as usize].get(node as usize)
}

pub(crate) fn mode_at(board: &Board, node: u8) -> Mode
    ensures { result ≡ (node_of (nodes_view board.now) node).mode }
{
    match node_at(board, node) {
        None => Mode::New,
        Some(n) => n.mode,
    }
}

pub(crate) fn mark_at(board: &Board, node: u8, port: u8) -> Mark
    ensures { result ≡ mark_of (nodes_view board.now) node port }
{
    match node_at(board, node) {
        None => Mark::Unmarked,
        Some(n) => n
            .marks
            .get(port as usize)
            .copied()
            .unwrap_or(Mark::Unmarked),
    }
}

pub(crate) fn is_live(board: &Board, node: u8, port: u8) -> bool
    ensures { result ≡ live_of (nodes_view board.now) node port }
{
    match node_at(board, node) {
        None => false,
        Some(n) => n.live.get(port as usize).copied().unwrap_or(false),
    }
}

pub(crate) fn entry_at(board: &Board, node: u8, destination: u8) -> Option<Way>
    ensures { entry_view result ≡ entry_of (nodes_view board.now) node destination }
{
    let n = node_at(board, node)?;
    n.row[..board.count as usize]
        .get(destination as usize)
        .copied()
        .flatten()
}
