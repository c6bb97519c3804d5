//! A wall: up to 64 nodes with four cable ports each that find their own ways round broken
//! cables. Five calls change it (cut, hand, slot, post, step); each does what the rules of the
//! crate `rules` say, and `power_up` promises what holds of every run of them.
#![tactic(auto)]

mod inner;
mod plain;
mod questions;
mod slot;
mod wall;

pub use crate::inner::Core;
pub use wall::Wall;
