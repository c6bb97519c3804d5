//! Random cable lists.
ghost use Rattle.std.specs.Prelude.{◌≡◌, ◌+◌, ◌<◌, ◌≤◌};

use crate::draft::Draft;
use crate::file::WallFile;
use crate::random::Random;

/// Which nodes a random cable may join.
#[derive(Clone, Copy)]
pub enum Partner {
    /// Any two.
    Any,
    /// A node and the next one, round from the last to the first: many double cables.
    Next,
    /// Two whose numbers leave the same rest by this divisor: at least so many parts.
    SameRest(u8),
}

/// How a random cable list is made: its nodes, which nodes a cable may join, how often a cable is
/// tried between two random ports, and the most cables that it may have. A try fails where a port is
/// taken, or where the two nodes may not be joined.
#[derive(Clone, Copy)]
pub struct Plan {
    pub nodes: u8,
    pub partner: Partner,
    pub tries: u16,
    pub most: u8,
}

// The node after this one, round from the last to the first.
fn next_of(node: u8, nodes: u8) -> u8
    ensures { (node + 1 < nodes → result ≡ node + 1) × (nodes ≤ node + 1 → result ≡ 0) }
{
    node.checked_add(1)
        .filter(|next| *next < nodes)
        .unwrap_or(0)
}

// A random partner of a node; the node itself where the one drawn may not be joined.
fn partner_of(random: &mut Random, plan: &Plan, node: u8) -> u8 {
    match plan.partner {
        Partner::Any => random.below(plan.nodes),
        Partner::Next => next_of(node, plan.nodes),
        Partner::SameRest(by) => {
            let drawn = random.below(plan.nodes);
            if drawn.checked_rem(by) == node.checked_rem(by) {
                drawn
            } else {
                node
            }
        }
    }
}

impl Plan {
    /// A random plan: 1 to 64 nodes, from sparse to dense, of each kind.
    pub fn any(random: &mut Random) -> Plan {
        let nodes = 1 + random.below(64);
        let dense = 1 + random.below(16);
        let partner = match random.below(4) {
            0 => Partner::Next,
            1 => Partner::SameRest(2 + random.below(3)),
            _ => Partner::Any,
        };
        Plan {
            nodes,
            partner,
            tries: u16::from(nodes) * u16::from(dense),
            most: 128,
        }
    }

    /// A cable list by this plan, as a wall file.
    pub fn make(&self, random: &mut Random) -> WallFile {
        let mut draft = Draft::new(self.nodes);
        for _ in 0..self.tries {
            if draft.file.cable_count() >= self.most {
                break;
            }
            let start = (random.below(self.nodes), random.below(4));
            let end = (partner_of(random, self, start.0), random.below(4));
            draft.lay(start, end);
        }
        draft.file
    }
}
