//! Callers of trays and choosers, whose contracts show what a caller can learn: a lender what its memory holds, a
//! caller that asked for room that its puts are accepted, and generic code that a pick is the chooser's own.
#![tactic(auto)]

mod askers;
mod lenders;
