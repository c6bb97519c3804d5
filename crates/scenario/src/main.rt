//! Plays a script on a wall: reads it from standard input, and prints every call and question with
//! its answer. A line that cannot be read ends the run with status 1.
#![tactic(auto)]

mod input;
mod playing;
mod setup;

use crate::setup::{Start, Wires};
use chooser::{LowestPort, RoundRobin};
use script::Picker;
use std::io::{BufReader, Stdin};
use wall::Wall;
use wiring::Wiring;

// Plays the rest of a script on a wall with this wiring.
fn with_wiring<W: Wiring + Drop>(
    rt: &HostRuntime,
    input: &mut BufReader<Stdin>,
    wiring: W,
    picker: Picker,
    start: Start,
) -> anyhow::Result<()> {
    match picker {
        Picker::Lowest => playing::play(
            rt,
            input,
            Wall::power_up(wiring, LowestPort::new()),
            start,
        ),
        Picker::Round => playing::play(rt, input, Wall::power_up(wiring, RoundRobin::new()), start),
    }
}

fn main(rt: HostRuntime) -> anyhow::Result<()> {
    let mut input = BufReader::new(rt.alloc(), rt.stdin())?;
    let Some(bench) = setup::set_up(&rt, &mut input)? else {
        return Ok(());
    };
    match bench.wires {
        Wires::Mesh(mesh) => with_wiring(&rt, &mut input, mesh, bench.picker, bench.start),
        Wires::Cables(list) => with_wiring(&rt, &mut input, list, bench.picker, bench.start),
    }
}
