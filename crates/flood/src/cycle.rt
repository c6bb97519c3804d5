//! The cycles of a broadcast, up to the first that reaches no new node.
ghost use Rattle.std.specs.Prelude.{◌≡◌, ◌+◌, ◌<◌, ◌≤◌, false, ◌||◌, length, get_or, if◌then◌else◌, nat_eq, slice_index_or, IfSome, is_some};
ghost use Rattle.rules.specs.Ports.{table};
ghost use Rattle.rules.specs.Flood.{cycle, reached, spread, waiting, deaf as deaf-cell};
ghost use Rattle.flood.specs.View.{wired, marks_view, cell_view, cells_view, reached_by};

use crate::cells::Moment;
use crate::types::{Cell, Spread, Wave};
use std::array;

// Whether a cell was written in this cycle.
fn written_in(cell: &Cell, cycle: u8) -> bool
    ensures { result ≡ reached_by cycle cell.now }
{
    matches!(cell, Cell::Wrote { at, .. } if *at == cycle)
}

impl Moment<'_> {
    // The cells after the next cycle, if it reaches a node.
    fn next(&self) -> Option<[Cell; 64]>
        ensures reached { is_some result ≡ reached (self.now.cycle + 1) (cycle (wired self.now.wave.now.count self.now.wave.now.ends.at) (marks_view self.now.wave.now.marks) self.now.wave.now.owner self.now.cycle (cells_view self.now.wave.now.count self.now.cells.now)) }
        ensures cells { IfSome result (λ next. cells_view self.now.wave.now.count next ≡ cycle (wired self.now.wave.now.count self.now.wave.now.ends.at) (marks_view self.now.wave.now.marks) self.now.wave.now.owner self.now.cycle (cells_view self.now.wave.now.count self.now.cells.now)) }
        ensures long { IfSome result (λ next. length next ≡ 64) }
    {
        let mut next = [Cell::Waiting; 64];
        let mut reached = false;
        // One pass writes the cells and sees whether one was reached.
        for node in 0..self.wave.count {
            let cell = self.heard(node);
            next[node as usize] = cell;
            reached |= written_in(&cell, self.cycle + 1);
        }
        reached.then_some(next)
    }
}

// The cells before the first cycle: the owner and the deaf nodes ignore flags, the others wait.
fn start(owner: u8, deaf: &[bool; 64], count: u8) -> [Cell; 64]
    requires { count ≤ 64 }
    ensures cells { cells_view count result ≡ table count (λ n. (if nat_eq n owner || slice_index_or deaf.now n false then deaf-cell else waiting)) }
    ensures long { length result ≡ 64 }
{
    array::from_fn(
        |node| -> Cell
            requires { node < 64 }
            ensures { node < count → cell_view result ≡ (if nat_eq node owner || slice_index_or deaf.entry.now node false then deaf-cell else waiting) }
        {
            // Past the count no node is asked.
            if node < count as usize && (node == owner as usize || deaf[node]) {
                Cell::Deaf
            } else {
                Cell::Waiting
            }
        },
    )
}

/// The broadcast of the wave's owner to the nodes that are not deaf: what each node wrote, and
/// how many cycles reached a node.
pub fn broadcast(wave: &Wave, deaf: &[bool; 64]) -> Spread
    ensures value { spread (wired wave.now.count wave.now.ends.at) (marks_view wave.now.marks) wave.now.owner (λ n. get_or deaf.now n false) ≡ record { cells = cells_view wave.now.count result.cells; cycles = result.cycles } }
    ensures long { length result.cells ≡ 64 }
{
    let mut cells = start(wave.owner, deaf, wave.count);
    let mut cycle = 0;
    // The loop yields how many cycles reached a node.
    let cycles = 'cycle: loop {
        if cycle >= wave.count {
            break 'cycle cycle;
        }
        let moment = Moment {
            wave,
            cells: &cells,
            cycle,
        };
        match moment.next() {
            Some(next) => {
                cells = next;
                cycle += 1;
            }
            None => break 'cycle cycle,
        }
    };
    Spread { cells, cycles }
}
