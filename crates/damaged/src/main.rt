//! Puts damaged wall files through the functions that make pages of a wall file, and prints how many
//! were accepted and refused, and a hash over all answers. The first argument is the number of files.
//! The files are random and the same in every run.
#![tactic(auto)]

mod bytes;
mod cables;
mod damage;
mod draw;
mod hash;
mod header;
mod report;
mod tally;
mod trial;
mod whole;

use crate::damage::damaged_file;
use crate::tally::Tally;
use crate::trial::trial;
use anyhow::Context;
use sample::Random;
use std::env;

/// The seed of all files.
const SEED: u64 = 10_000;

fn run(rt: &HostRuntime) -> anyhow::Result<()> {
    let argument = env::args(rt)?.nth(1).context("how many files?")?;
    let files = argument.as_str().parse::<u32>()?;
    let mut random = Random::new(SEED);
    let mut tally = Tally::default();
    for number in 0..files {
        let file = damaged_file(number, &mut random);
        trial(file.as_slice(), &mut random, &mut tally);
    }
    report::print_tally(rt, files, &tally)?;
    Ok(())
}

fn main(rt: HostRuntime) -> anyhow::Result<()> {
    run(&rt)
}
