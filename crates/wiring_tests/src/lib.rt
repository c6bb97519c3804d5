//! Worked examples of wirings, proved, and tests of every refusal of a wall file, run.
#![tactic(auto)]

ghost use Rattle.wiring_tests.specs.Worked.{Worked};

/// The worked examples hold: the contract is the list of them.
pub fn worked_examples()
    ensures { Worked }
{}

#[cfg(test)]
mod tests;
