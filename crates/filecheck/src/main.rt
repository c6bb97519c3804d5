//! Checks a wall file: reads it from standard input, and prints what it spells or what is wrong with
//! it. The status is 0 for a good file and 1 for a refused one.
#![tactic(auto)]

use anyhow::ensure;

mod input;
mod report;

/// One byte more than the longest good file: a header and 128 cables. So a file that is too long is
/// told apart, and an input without end is met.
const MOST: usize = 520;

fn main(rt: HostRuntime) -> anyhow::Result<()> {
    let mut buffer = [0; MOST];
    let length = input::fill(&mut rt.stdin(), &mut buffer)?;
    let verdict = report::check(rt.alloc(), &buffer[0..length])?;
    match &verdict {
        Ok(text) | Err(text) => rt.print(text.as_str())?,
    }
    ensure!(verdict.is_ok(), "the file is refused");
    Ok(())
}
