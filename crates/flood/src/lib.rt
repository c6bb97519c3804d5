//! A broadcast: how the flag of a slot's owner spreads over marked cables, cycle by cycle.
#![tactic(auto)]

mod cells;
mod cycle;
mod ends;
mod types;

pub use cycle::broadcast;
pub use types::{Cell, Ends, Marks, Spread, Wave};
