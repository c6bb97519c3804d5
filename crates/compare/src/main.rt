//! Compares the wall with a second simulator that was made from another text: all 64 meshes and as
//! many random cable lists as the first argument says, each powered up and then cut and recovered
//! several times. Whenever both are calm, every root, mark and entry of every node is compared. The
//! status is 1 if anything differs.
#![tactic(auto)]

mod answers;
mod cuts;
mod limits;
mod pair;
mod report;
mod tally;
mod trial;

use crate::tally::Tally;
use crate::trial::trial;
use anyhow::{Context, anyhow, ensure};
use sample::{Plan, Random};
use std::env;
use wiring::{CableList, Mesh};

/// The seed of all random walls and cuts.
const SEED: u64 = 20_261_118;

fn compare_meshes(random: &mut Random, tally: &mut Tally) -> anyhow::Result<()> {
    for rows in 1..=8u8 {
        for columns in 1..=8u8 {
            let Ok(mesh) = Mesh::new(columns, rows) else {
                return Err(anyhow!("a mesh was refused"));
            };
            trial(mesh, random, tally);
        }
    }
    Ok(())
}

fn compare_lists(lists: u32, random: &mut Random, tally: &mut Tally) -> anyhow::Result<()> {
    for _ in 0..lists {
        let plan = Plan::any(random);
        let file = plan.make(random);
        let mut list = CableList::new();
        ensure!(
            list.read(file.as_slice()).is_ok(),
            "a random wall file was refused"
        );
        trial(list, random, tally);
    }
    Ok(())
}

fn run(rt: &HostRuntime) -> anyhow::Result<()> {
    let argument = env::args(rt)?
        .nth(1)
        .context("how many random cable lists?")?;
    let lists = argument.as_str().parse::<u32>()?;
    let mut random = Random::new(SEED);
    let mut tally = Tally::default();
    compare_meshes(&mut random, &mut tally)?;
    compare_lists(lists, &mut random, &mut tally)?;
    report::print_tally(rt, lists, &tally)?;
    limits::print_limits(rt)?;
    ensure!(tally.differ.0 == 0, "the two simulators differ");
    Ok(())
}

fn main(rt: HostRuntime) -> anyhow::Result<()> {
    run(&rt)
}
