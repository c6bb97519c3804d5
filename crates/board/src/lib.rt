//! The node records of a wall, and what a cut, a raised hand and a slot do to them.
#![tactic(auto)]

mod change;
mod made;
mod rows;
mod slot;
mod types;

pub use rows::act;
pub use types::{Board, Node, Way};
