//! What was compared, and what differs.
use crate::answers::{Marks, Way};
use crate::cuts::Cuts;
use sample::WallFile;
use std::num::Saturating;

/// Two answers that differ: the wall's and the net's.
#[derive(Clone, Copy)]
pub enum Difference {
    /// After many slots one of them is not calm.
    Calm {
        wall: bool,
        net: bool,
    },
    Root {
        node: u8,
        wall: Option<u8>,
        net: Option<u8>,
    },
    Marks {
        node: u8,
        wall: Option<Marks>,
        net: Marks,
    },
    Entry {
        node: u8,
        to: u8,
        wall: Option<Way>,
        net: Option<Way>,
    },
}

/// A difference, with all that is needed to come to it again: the wall file and the cuts so far.
#[derive(Clone, Copy)]
pub struct Found {
    pub difference: Difference,
    pub file: WallFile,
    pub cuts: Cuts,
}

/// How much was compared, how much differs, and the first difference. The counters stay at their
/// largest value once they have come to it.
#[derive(Clone, Copy, Default)]
pub struct Tally {
    pub walls: Saturating<u64>,
    pub recoveries: Saturating<u64>,
    pub cuts: Saturating<u64>,
    pub roots: Saturating<u64>,
    pub marks: Saturating<u64>,
    pub entries: Saturating<u64>,
    pub left_out: Saturating<u64>,
    pub differ: Saturating<u64>,
    /// The first difference of the comparison that runs.
    pub first: Option<Difference>,
    /// The first difference of all.
    pub found: Option<Found>,
}

// Whether a way was written after this cycle.
fn is_behind(way: Way, open: Option<u8>) -> bool {
    open.is_some_and(|cycle| cycle < way.count)
}

impl Tally {
    /// Notes a difference; the first one is kept.
    pub(crate) fn note(&mut self, difference: Difference) {
        self.differ += 1;
        let _ = self.first.get_or_insert(difference);
    }

    /// Compares the roots of a node.
    pub(crate) fn root(&mut self, node: u8, wall: Option<u8>, net: Option<u8>) {
        self.roots += 1;
        if wall != net {
            self.note(Difference::Root { node, wall, net });
        }
    }

    /// Compares the marks of a node's ports.
    pub(crate) fn marks(&mut self, node: u8, wall: Option<Marks>, net: Marks) {
        self.marks += 4;
        if wall != Some(net) {
            self.note(Difference::Marks { node, wall, net });
        }
    }

    /// Compares two entries. From the cycle after `open` on the description of the net leaves open
    /// where flags go, so that of an entry which both have from there only its being there is
    /// compared.
    pub(crate) fn entry(
        &mut self,
        node: u8,
        to: u8,
        wall: Option<Way>,
        net: Option<Way>,
        open: Option<u8>,
    ) {
        match (wall, net) {
            (Some(a), Some(b)) if is_behind(a, open) && is_behind(b, open) => self.left_out += 1,
            _ => {
                self.entries += 1;
                if wall != net {
                    self.note(Difference::Entry {
                        node,
                        to,
                        wall,
                        net,
                    });
                }
            }
        }
    }
}
