//! One node in one cycle: which ports get a flag, and what it then writes.
ghost use Rattle.std.specs.Prelude.{◌≡◌, ◌<◌};
ghost use Rattle.rules.specs.Ports.{ports_where};
ghost use Rattle.rules.specs.Flood.{all_up, passes_on, sends, gets, next_cell};
ghost use Rattle.flood.specs.View.{wired, marks_view, cell_view, cells_view};

use crate::types::{Cell, Wave};
use std::array;

/// A broadcast after so many cycles: what it runs over, and what each node knows by then.
#[derive(Clone, Copy)]
pub(crate) struct Moment<'a> {
    pub(crate) wave: &'a Wave,
    pub(crate) cells: &'a [Cell; 64],
    pub(crate) cycle: u8,
    ghost in_time: { cycle < 64 },
}

// A port of a node.
#[derive(Clone, Copy)]
struct Place {
    node: u8,
    port: u8,
    ghost node_few: { node < 64 },
    ghost port_few: { port < 4 },
}

// Each clause gives a rule its five arguments in full: a name for the five would hide which rule
// reads which of them, and the rules take them apart.
impl Moment<'_> {
    // Whether every port of the set is marked up at the node.
    #[tactic(auto, unfolding(rules::specs::Flood::all_up))]
    fn every_up(&self, node: u8, ports: [bool; 4]) -> bool
        requires { node < 64 }
        ensures { result ≡ all_up (marks_view self.now.wave.now.marks) node ports }
    {
        let m = self.wave.marks[node as usize];
        // The four tests as all_up has them.
        (!ports[0] | m[0].is_up())
            & (!ports[1] | m[1].is_up())
            & (!ports[2] | m[2].is_up())
            & (!ports[3] | m[3].is_up())
    }

    // Whether a node that knows this much sends on one of its ports in the next cycle: on a port
    // that got no flag, if it is down, or up and not every flag came by an up port.
    #[tactic(auto, unfolding(rules::specs::Flood::passes_on))]
    fn forwards(&self, from: Place, cell: Cell) -> bool
        ensures { result ≡ passes_on (marks_view self.now.wave.now.marks) self.now.cycle from.node from.port (cell_view cell) }
    {
        match cell {
            Cell::Wrote { ports, at } if at == self.cycle => {
                let mark = self.wave.marks[from.node as usize][from.port as usize];
                let passes = mark.is_down() | mark.is_up() & !self.every_up(from.node, ports);
                !ports[from.port as usize] & passes
            }
            _ => false,
        }
    }

    // Whether a node sends on one of its ports in the next cycle: the owner on its marked ports in
    // the first, any other node as it passes on.
    #[tactic(auto, using(crate::proofs::Arrays::cell_read, crate::proofs::Arrays::cell_past), unfolding(rules::specs::Flood::sends, rules::specs::Flood::passes_on))]
    fn sent(&self, from: Place) -> bool
        ensures { result ≡ sends (marks_view self.now.wave.now.marks) self.now.wave.now.owner self.now.cycle (cells_view self.now.wave.now.count self.now.cells.now) from.node from.port }
    {
        let Place { node, port } = from;
        if node == self.wave.owner {
            return (self.cycle == 0) & self.wave.marks[node as usize][port as usize].is_marked();
        }
        if node >= self.wave.count {
            return false;
        }
        self.forwards(from, self.cells[node as usize])
    }

    // Whether a port gets a flag in the next cycle.
    fn got(&self, to: Place) -> bool
        ensures { result ≡ gets (wired self.now.wave.now.count self.now.wave.now.ends.at) (marks_view self.now.wave.now.marks) self.now.wave.now.owner self.now.cycle (cells_view self.now.wave.now.count self.now.cells.now) to.node to.port }
    {
        // Read at its place: far_end would test again what the place says of node and port.
        match self.wave.ends.at[4 * to.node as usize + to.port as usize] {
            None => false,
            Some((node, port)) => self.sent(Place { node, port }),
        }
    }

    // The ports of a node that get a flag in the next cycle.
    fn flags(&self, node: u8) -> [bool; 4]
        requires { node < 64 }
        ensures { result ≡ ports_where (gets (wired self.now.wave.now.count self.now.wave.now.ends.at) (marks_view self.now.wave.now.marks) self.now.wave.now.owner self.now.cycle (cells_view self.now.wave.now.count self.now.cells.now) node) }
    {
        array::from_fn(
            |port|
                requires { (node < 64) × (port < 4) }
            {
                self.got(Place {
                    node,
                    port: port as u8,
                })
            },
        )
    }

    /// A node's cell after the next cycle. It ignores what comes after its first flag.
    #[tactic(auto, using(crate::proofs::Arrays::cell_read), unfolding(rules::specs::Flood::next_cell, rules::specs::Ports::some_port))]
    pub(crate) fn heard(&self, node: u8) -> Cell
        requires { node < self.now.wave.now.count }
        ensures { cell_view result ≡ next_cell (wired self.now.wave.now.count self.now.wave.now.ends.at) (marks_view self.now.wave.now.marks) self.now.wave.now.owner self.now.cycle (cells_view self.now.wave.now.count self.now.cells.now) node }
    {
        let cell = self.cells[node as usize];
        match cell {
            Cell::Waiting => {
                let ports = self.flags(node);
                // As some_port has it.
                if ports[0] | ports[1] | ports[2] | ports[3] {
                    Cell::Wrote {
                        ports,
                        at: self.cycle + 1,
                    }
                } else {
                    cell
                }
            }
            // Case by case, as next_cell has them.
            Cell::Deaf => cell,
            Cell::Wrote { .. } => cell,
        }
    }
}
