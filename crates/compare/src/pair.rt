//! A wall and a net over the same cables, slot by slot in lockstep.
use crate::answers;
use crate::cuts::Cut;
use crate::tally::{Difference, Tally};
use chooser::LowestPort;
use flags::Net;
use sample::Random;
use std::array::from_fn;
use wall::Wall;
use wiring::Wiring;

/// More slots than any recovery takes: two rounds of 64 nodes and some.
const MOST_SLOTS: u16 = 256;

/// The two simulators, and how many slots they have run.
#[derive(Drop)]
pub struct Pair<W> {
    wall: Wall<W, LowestPort>,
    net: Net,
    slots: u32,
}

// A net over the cables of a wiring; it takes them at 4 * node + port.
fn net_over<W: Wiring>(wiring: &W) -> Net {
    let ends = from_fn(|place| wiring.far_end((place / 4) as u8, (place % 4) as u8));
    Net::new(wiring.node_count(), &ends)
}

impl<W: Wiring> Pair<W> {
    /// Both at power-up.
    pub(crate) fn power_up(wiring: W) -> Pair<W> {
        let net = net_over(&wiring);
        Pair {
            wall: Wall::power_up(wiring, LowestPort::new()),
            net,
            slots: 0,
        }
    }

    fn is_calm(&self) -> bool {
        self.wall.calm() & self.net.settled()
    }

    fn slot(&mut self) {
        let _ = self.wall.slot();
        self.net.run_slot();
        self.slots = self.slots.saturating_add(1);
    }

    // Runs slots until both are calm, or for very long.
    fn settle(&mut self) {
        for _ in 0..MOST_SLOTS {
            if self.is_calm() {
                break;
            }
            self.slot();
        }
    }

    /// Runs so many slots.
    pub(crate) fn idle(&mut self, slots: u8) {
        for _ in 0..slots {
            self.slot();
        }
    }

    /// Cuts a random cable on both sides, if one is met in a few draws.
    pub(crate) fn cut(&mut self, random: &mut Random) -> Option<Cut> {
        let nodes = self.wall.node_count();
        for _ in 0..64u8 {
            let node = random.below(nodes);
            let port = random.below(4);
            if self.wall.cut(node, port).is_ok() {
                self.net.fail(node, port);
                let slots = self.slots;
                return Some(Cut { slots, node, port });
            }
        }
        None
    }

    // The cycle in which a node got flags for this destination by an up and by a down port at once, if it did and both
    // wrote the same.
    fn mixed_at(&self, node: u8, to: u8) -> Option<u8> {
        let way = answers::wall_way(&self.wall, node, to)?;
        let marks = answers::wall_marks(&self.wall, node)?;
        let same = answers::net_way(&self.net, node, to) == Some(way);
        (same && marks.is_mixed(&way)).then_some(way.count)
    }

    // The first such cycle of all nodes. The wall's rules say where such a node sends; the net's description does not.
    fn open_from(&self, to: u8) -> Option<u8> {
        (0..self.wall.node_count())
            .filter_map(|node| self.mixed_at(node, to))
            .min()
    }

    fn compare_ways(&self, to: u8, tally: &mut Tally) {
        let open = self.open_from(to);
        for node in 0..self.wall.node_count() {
            let wall = answers::wall_way(&self.wall, node, to);
            let net = answers::net_way(&self.net, node, to);
            tally.entry(node, to, wall, net, open);
        }
    }

    // Compares all that the two know.
    fn compare(&self, tally: &mut Tally) {
        for node in 0..self.wall.node_count() {
            let root = answers::wall_root(&self.wall, node);
            tally.root(node, root, self.net.root(node));
            let marks = answers::wall_marks(&self.wall, node);
            tally.marks(node, marks, answers::net_marks(&self.net, node));
            self.compare_ways(node, tally);
        }
    }

    /// Runs slots until both are calm, and compares them. An error is the first difference.
    pub(crate) fn settle_and_compare(&mut self, tally: &mut Tally) -> Result<(), Difference> {
        self.settle();
        let wall = self.wall.calm();
        let net = self.net.settled();
        if wall & net {
            self.compare(tally);
        } else {
            tally.note(Difference::Calm { wall, net });
        }
        tally.first.take().map_or(Ok(()), Err)
    }
}
