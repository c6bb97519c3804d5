//! The worked walls, run on the code: over meshes and over the cable lists that spell them, with
//! the lowest-port and the round-robin chooser.
#![tactic(auto)]

#[cfg(test)]
mod tests;
