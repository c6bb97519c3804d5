//! Sums over patterns, and what is printed of them. A sum stays at its largest value once it has
//! come to it.
use crate::field::{Effort, Field};
use crate::graph;
use std::fmt;
use std::num::Saturating;
use wiring::Wiring;

/// What was counted over some patterns. A pair is a node and another node, in this order.
#[derive(Clone, Copy, Default)]
pub struct Sums {
    /// How many there were.
    pub patterns: Saturating<u64>,
    /// Pairs between the nodes that are looked at.
    pub pairs: Saturating<u64>,
    /// Pairs with a way over live cables.
    pub joined: Saturating<u64>,
    /// Pairs with an entry.
    pub entered: Saturating<u64>,
    /// Pairs that have one of the two and not the other.
    pub unequal: Saturating<u64>,
    /// The counts of all entries.
    pub counts: Saturating<u64>,
    /// The lengths of all shortest ways.
    pub ways: Saturating<u64>,
    /// Patterns with a circle.
    pub circles: Saturating<u64>,
    /// Patterns in which every pair has an entry.
    pub whole: Saturating<u64>,
    /// Slots from the cuts to the calm.
    pub slots: Saturating<u64>,
    /// Cycles that reached a node.
    pub cycles: Saturating<u64>,
    /// The most cycles of one recovery.
    pub most_cycles: Saturating<u64>,
}

/// A number with two digits behind the point, in hundredths.
#[derive(Clone, Copy)]
pub struct Hundredths(u64);

impl fmt::Display for Hundredths {
    fn fmt<W: fmt::Write>(&self, f: &mut fmt::Formatter<W>) -> fmt::Result {
        let whole = self.0 / 100;
        let part = self.0 % 100;
        write!(f, "{whole}.{part:02}")
    }
}

/// `a` over `b`, as hundredths and rounded down; 0 where `b` is 0.
pub(crate) fn ratio(a: Saturating<u64>, b: Saturating<u64>) -> Hundredths {
    let hundredfold = a * Saturating(100);
    Hundredths(hundredfold.0.checked_div(b.0).unwrap_or(0))
}

/// `a` over `b` in percent.
pub(crate) fn percent(a: Saturating<u64>, b: Saturating<u64>) -> Hundredths {
    ratio(a * Saturating(100), b)
}

impl Sums {
    // One pair: its entry's count and the length of its shortest way.
    fn pair(&mut self, count: Option<u8>, way: Option<u8>) {
        self.pairs += 1;
        if let Some(way) = way {
            self.joined += 1;
            self.ways += u64::from(way);
        }
        if let Some(count) = count {
            self.entered += 1;
            self.counts += u64::from(count);
        }
        if count.is_some() != way.is_some() {
            self.unequal += 1;
        }
    }

    // The pairs from one node to the others that are not gone.
    fn row(&mut self, field: &Field, gone: &[u8], node: u8) {
        let distances = graph::distances(&field.ports, node);
        for (to, way) in (0..field.wall.node_count()).zip(distances) {
            if to != node && !gone.contains(&to) {
                let entry = field.wall.entry(node, to).ok().flatten();
                self.pair(entry.map(|(_, count)| count), way);
            }
        }
    }

    // Pairs without an entry.
    fn missing(&self) -> Saturating<u64> {
        self.pairs - self.entered
    }

    /// Adds a wall that has settled, and what it took. Nodes that are gone are not looked at.
    pub(crate) fn add(&mut self, field: &mut Field, gone: &[u8], effort: Effort) {
        let missing = self.missing();
        self.patterns += 1;
        self.slots += effort.slots;
        self.cycles += effort.cycles;
        self.most_cycles = self.most_cycles.max(effort.cycles);
        for node in 0..field.wall.node_count() {
            if !gone.contains(&node) {
                self.row(field, gone, node);
            }
        }
        if self.missing() == missing {
            self.whole += 1;
        }
        field.note_all_marks();
        if graph::has_circle(&field.ports) {
            self.circles += 1;
        }
    }
}
