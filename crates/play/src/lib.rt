//! Scripts on a wall: a call or a question is put to a wall, and the lines are made that are printed
//! of it.
#![tactic(auto)]

pub mod calls;
pub mod questions;

pub use calls::{make, perform};
pub use questions::answer;
