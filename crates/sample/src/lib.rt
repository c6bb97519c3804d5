//! Random walls for experiments: numbers that look random and are the same for the same seed, and
//! wall files made from them. A wall that is made here is a file as any other, so the reader of
//! wall files has the last word on it.
#![tactic(auto)]

mod draft;
mod file;
mod maker;
mod random;

pub use file::WallFile;
pub use maker::{Partner, Plan};
pub use random::{Bound, Random};
