//! The calls and questions of a script, put to its wall one after another.
use crate::input;
use crate::input::MOST_LINES;
use crate::setup::{Act, Start};
use chooser::Chooser;
use play::{answer, make};
use script::{Calls, Line, Question};
use std::io::{BufReader, Stdin};
use wall::Wall;
use wiring::Wiring;

fn put<W: Wiring, C: Chooser>(
    rt: &HostRuntime,
    wall: &mut Wall<W, C>,
    act: Act,
) -> anyhow::Result<()> {
    match act {
        Act::Make(made) => calls(rt, wall, made),
        Act::Ask(asked) => question(rt, wall, asked),
    }
}

fn calls<W: Wiring, C: Chooser>(
    rt: &HostRuntime,
    wall: &mut Wall<W, C>,
    calls: Calls,
) -> anyhow::Result<()> {
    for _ in 0..calls.times {
        rt.print(make(rt.alloc(), wall, calls.call)?)?;
    }
    Ok(())
}

fn question<W: Wiring, C: Chooser>(
    rt: &HostRuntime,
    wall: &Wall<W, C>,
    question: Question,
) -> anyhow::Result<()> {
    rt.print(answer(rt.alloc(), wall, question)?)?;
    Ok(())
}

/// Plays a script on a wall, from its first call or question on.
pub fn play<W: Wiring + Drop, C: Chooser + Drop>(
    rt: &HostRuntime,
    input: &mut BufReader<Stdin>,
    mut wall: Wall<W, C>,
    start: Start,
) -> anyhow::Result<()> {
    put(rt, &mut wall, start.act)?;
    // From the line before: number + 1 is then in range, whatever start says.
    for number in start.number..MOST_LINES {
        let Some(read) = input::next_line(rt, input, number + 1)? else {
            return Ok(());
        };
        match read.line {
            Line::Blank => {}
            Line::Make(made) => put(rt, &mut wall, Act::Make(made))?,
            Line::Ask(asked) => put(rt, &mut wall, Act::Ask(asked))?,
            // A wiring or a chooser comes too late.
            _ => return input::unreadable(rt, number + 1, read.bytes.as_slice()),
        }
    }
    input::too_long(rt)
}
