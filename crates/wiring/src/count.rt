//! How many cables a wiring has, by its meaning alone. specs/Listing.antt lists them.
ghost use Rattle.std.specs.Prelude.{◌≡◌, ◌≤◌, length};
ghost use Rattle.wiring.specs.Listing.{begins, node_cables, cable_count};

use crate::Wiring;

// Whether this is the lower end of a cable.
fn begins<W: Wiring>(wiring: &W, node: u8, port: u8) -> bool
    ensures { result ≡ begins node ((W.Wiring.layout wiring.now).far node port) }
{
    wiring
        .far_end(node, port)
        .is_some_and(|(far, _)| node < far)
}

// How many cables have their lower end at this node.
fn begin_at<W: Wiring>(wiring: &W, node: u8) -> u16
    ensures value { result ≡ length (node_cables (W.Wiring.layout wiring.now) node) }
    ensures bound { result ≤ 4 }
{
    (0..4)
        .filter(
            |port: &u8| -> bool
                ensures { result ≡ begins node ((W.Wiring.layout wiring.entry.now).far node port.now) }
            { begins(wiring, node, *port) },
        )
        .count() as u16
}

/// The number of cables of a wiring.
pub fn cable_count<W: Wiring>(wiring: &W) -> u16
    ensures { result ≡ cable_count (W.Wiring.layout wiring.now) }
{
    (0..wiring.node_count())
        .map(|node| begin_at(wiring, node))
        .sum()
}
