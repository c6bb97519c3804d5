//! Wirings: which node's port a cable leads to. The trait `Wiring` says what every wiring is; a
//! `Mesh` is one by rule, and a `CableList` is one that a wall file spells. specs/Layout.antt has
//! what a wiring means.
#![tactic(auto)]

ghost use Rattle.std.specs.Prelude.{◌≡◌};
ghost use Rattle.wiring.specs.Layout.{Layout, Sound};

pub mod cable;
pub mod cables;
pub mod count;
mod file;
pub mod mesh;

pub use cable::Cable;
pub use cables::CableList;
pub use count::cable_count;
pub use mesh::Mesh;

/// A wiring: up to 64 nodes, numbered from 0, with ports 0 to 3, and for each port nothing or a far
/// end. Its meaning is a `Layout`, and every wiring keeps the four facts of `Sound`: the node count
/// is in range, every far end is in range, the far end of a far end is the start, and no cable joins
/// a node to itself. A question changes nothing.
pub trait Wiring {
    ghost layout: { Self → Layout };

    /// The number of nodes, 1 to 64.
    fn node_count(&self) -> u8
        ensures { result ≡ (layout self.now).count };

    /// The node and the port that the cable at this node and port leads to. Nothing where there is
    /// no cable, and nothing out of range.
    fn far_end(&self, node: u8, port: u8) -> Option<(u8, u8)>
        ensures { result ≡ (layout self.now).far node port };

    ghost sound: { (x : Self) → Sound (layout x) };
}
