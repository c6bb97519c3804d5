//! Prints the pages of a wall: reads a wall file from standard input, and prints its nodes' pages or why it is
//! refused. The status is 0 for a good file and 1 for a refused one.
#![tactic(auto)]

use anyhow::{anyhow, ensure};
use page::{WALL_MAX, pages};
use std::io::{Read, Write};
use tray::Tray;

/// One byte more than the longest good file: a header and 128 cables. So a file that is too long is
/// told apart, and an input without end is met.
const MOST: u64 = 520;

fn main(rt: HostRuntime) -> anyhow::Result<()> {
    let mut file = Vec::new(rt.alloc());
    rt.stdin().take(MOST).read_to_end(&mut file)?;
    let mut bytes = [0; WALL_MAX];
    let mut out = Tray::new(&mut bytes);
    let good = pages(file.as_slice(), &mut out).map_err(|_| anyhow!(
        "there is no room for the pages"
    ))?;
    rt.stdout().write_all(out.as_slice())?;
    ensure!(good, "the file is refused");
    Ok(())
}
