//! The lines of standard input.
use anyhow::anyhow;
use script::{Line, Trouble, read_line};
use std::alloc::Global;
use std::io;
use std::io::{BufRead, BufReader, Stdin, Write};

/// The most lines that a script may have. Nothing says that an input ends, so the run has to.
pub const MOST_LINES: u32 = 65536;

// The next line without its line feed, or nothing at the end of the input.
fn next_bytes(heap: Global, input: &mut BufReader<Stdin>) -> io::Result<Option<Vec<u8>>> {
    let mut line = Vec::new(heap);
    if input.read_until(b'\n', &mut line)? == 0 {
        return Ok(None);
    }
    if line.as_slice().ends_with(b"\n") {
        let _ = line.pop();
    }
    Ok(Some(line))
}

/// Prints that a line cannot be read, and ends the run by an error.
pub fn unreadable<T>(rt: &HostRuntime, number: u32, line: &[u8]) -> anyhow::Result<T> {
    print!(rt; "line {number}: cannot read: ")?;
    rt.stdout().write_all(line)?;
    rt.print("\n")?;
    Err(anyhow!("a line cannot be read"))
}

/// A line of the script, with its bytes.
#[derive(Drop)]
pub struct Read {
    pub bytes: Vec<u8>,
    pub line: Line,
}

/// Reads the next line, which has this number. Nothing at the end of the input.
pub fn next_line(
    rt: &HostRuntime,
    input: &mut BufReader<Stdin>,
    number: u32,
) -> anyhow::Result<Option<Read>> {
    let Some(bytes) = next_bytes(rt.alloc(), input)? else {
        return Ok(None);
    };
    match read_line(rt.alloc(), bytes.as_slice()) {
        Ok(line) => Ok(Some(Read { bytes, line })),
        Err(Trouble::CannotRead) => unreadable(rt, number, bytes.as_slice()),
        Err(Trouble::OutOfMemory) => Err(anyhow!("out of memory")),
    }
}

/// Prints that a script is too long, and ends the run by an error.
pub fn too_long<T>(rt: &HostRuntime) -> anyhow::Result<T> {
    unreadable(rt, MOST_LINES + 1, b"a script has at most 65536 lines")
}
