//! The packets of a wall: those in flight, the post that adds one, the step that takes each of
//! them once, and their going home when a node ends its recovery. What each call answers and
//! leaves behind is said by the definitions of `rules`, through the views in specs/View.antt: the
//! public contracts stand on specs/Posting.antt (`Posts`) and specs/Stepping.antt (`StepDone`,
//! `StepRefused`). A step costs time in proportion to the packets in flight.
#![tactic(auto)]

mod deciding;
mod homing;
mod occupancy;
mod offers;
mod posting;
mod questions;
mod reads;
mod stepping;
mod types;

pub use types::Flight;
