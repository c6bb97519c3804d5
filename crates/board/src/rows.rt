//! One node's record in a slot: its marks for the broadcast, and what the broadcast changes in it.
ghost use Rattle.std.specs.Prelude.{◌≡◌, ℕ, ◌<◌, ◌≤◌};
ghost use Rattle.rules.specs.Root.{order, root_mark};
ghost use Rattle.rules.specs.Slot.{act_of, informed, tick, tick_mode};
ghost use Rattle.flood.specs.View.{wired, cell_view, cells_view};
ghost use Rattle.board.specs.View.{node_view, nodes_view, is_joined, rooted_node};

use crate::types::{Board, Node, Way};
use flood::{Cell, Ends};
use rules::{Act, Mark, Mode};
use std::array;

/// What a node does in its own slot: a recovering one broadcasts as member, a new or serving one
/// with its hand up becomes root, any other is silent.
pub fn act(mode: Mode, hand: bool) -> Act
    ensures { result ≡ act_of mode hand }
{
    match (mode, hand) {
        (Mode::Recovering { .. }, _) => Act::Member,
        (Mode::New, true) => Act::Root,
        (Mode::New, false) => Act::Silent,
        (Mode::Serving { .. }, true) => Act::Root,
        (Mode::Serving { .. }, false) => Act::Silent,
    }
}

// Whether the root's flag reached a node, or it is the root.
pub(crate) fn joined(cell: Cell) -> bool
    ensures { result ≡ is_joined (cell_view cell) }
{
    !matches!(cell, Cell::Waiting)
}

// A node's order: by distance from the root, then by number.
fn order_of(cells: &[Cell; 64], count: u8, node: u8) -> u16
    requires { count ≤ 64 }
    ensures { result ≡ order count (cells_view count cells.now) node }
{
    if node >= count {
        return node as u16;
    }
    match cells[node as usize] {
        Cell::Waiting | Cell::Deaf => node as u16,
        Cell::Wrote { at, .. } => at as u16 * count as u16 + node as u16,
    }
}

// The mark of a port by a root's broadcast: a live port is up where the neighbour's order is
// lower, and down otherwise. Four values that two functions take; a struct would be taken apart
// at once.
fn mark_for(board: &Board, ends: &Ends, cells: &[Cell; 64], node: u8, port: u8) -> Mark
    requires { (node < board.now.count) × (port < 4) }
    ensures { result ≡ root_mark (wired board.now.count ends.now.at) (nodes_view board.now) (cells_view board.now.count cells.now) node port }
{
    let live = board.nodes[node as usize].live[port as usize];
    if !live {
        return Mark::Unmarked;
    }
    match ends.far_end(node, port) {
        None => Mark::Unmarked,
        Some((far, _)) => {
            if order_of(cells, board.count, far) < order_of(cells, board.count, node) {
                Mark::Up
            } else {
                Mark::Down
            }
        }
    }
}

// A node's record after a root's slot began: fresh marks, no entries, N slots left, hand down,
// where the root's flag reached it; otherwise as it was.
pub(crate) fn enlisted_record(
    board: &Board,
    ends: &Ends,
    cells: &[Cell; 64],
    root: u8,
    node: u8,
) -> Node
    requires { node < board.now.count }
    ensures { node_view board.now.count result ≡ rooted_node (wired board.now.count ends.now.at) (nodes_view board.now) (cells_view board.now.count cells.now) root node }
{
    let mut held = board.nodes[node as usize];
    if joined(cells[node as usize]) {
        held.mode = Mode::Recovering {
            root,
            left: board.count,
        };
        held.hand = false;
        held.marks = array::from_fn(|port| mark_for(board, ends, cells, node, port as u8));
        held.row = [None; 64];
    }
    held
}

// What a broadcast changes in a node's record: an entry for its owner, where a flag came.
#[tactic(auto, using(crate::proofs::Slots::row_written, crate::proofs::Slots::informed_other), unfolding(rules::specs::Slot::informed))]
pub(crate) fn inform_record(held: &mut Node, owner: u8, cell: Cell)
    requires { owner < 64 }
    ensures { (count : ℕ) → owner < count → node_view count held.new ≡ informed (node_view count held.old) owner (cell_view cell) }
{
    if let Cell::Wrote { ports, at } = cell {
        held.row[owner as usize] = Some(Way { ports, count: at });
    }
}

// A mode with one slot fewer left.
fn ticked(mode: Mode) -> Mode
    ensures { result ≡ tick_mode mode }
{
    match mode {
        Mode::Recovering { root, left } if left <= 1 => Mode::Serving { root },
        Mode::Recovering { root, left } => Mode::Recovering {
            root,
            left: left - 1,
        },
        other => other,
    }
}

// A node's record at the end of a slot.
pub(crate) fn tick_record(held: &mut Node)
    ensures { (count : ℕ) → node_view count held.new ≡ tick (node_view count held.old) }
{
    held.mode = ticked(held.mode);
}
