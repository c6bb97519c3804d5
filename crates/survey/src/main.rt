//! Measures walls as the field does: random cuts, broken nodes, and packets in flight while cables
//! break, on the 8x8 mesh and on random cable lists. The first argument is the number of patterns.
#![tactic(auto)]

mod broken;
mod field;
mod graph;
mod packets;
mod sums;
mod walls;

use crate::walls::Walls;
use anyhow::Context;
use sample::Random;
use std::env;

/// The seed of all random walls and cuts.
const SEED: u64 = 1_118;

fn survey(
    rt: &HostRuntime,
    walls: &Walls,
    random: &mut Random,
    patterns: u32,
) -> anyhow::Result<()> {
    broken::print_control(rt, walls, random)?;
    rt.print("\n")?;
    broken::print_cables(rt, walls, random, patterns)?;
    rt.print("\n")?;
    broken::print_nodes(rt, walls, random, patterns)?;
    rt.print("\n")?;
    packets::print_packets(rt, walls, random, patterns)?;
    rt.print("\n")?;
    Ok(())
}

fn run(rt: &HostRuntime) -> anyhow::Result<()> {
    let argument = env::args(rt)?.nth(1).context("how many patterns?")?;
    let patterns = argument.as_str().parse::<u32>()?;
    let mut random = Random::new(SEED);
    survey(rt, &Walls::mesh()?, &mut random, patterns)?;
    survey(rt, &Walls::Lists, &mut random, patterns)
}

fn main(rt: HostRuntime) -> anyhow::Result<()> {
    run(&rt)
}
