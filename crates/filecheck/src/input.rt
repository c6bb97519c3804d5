//! The reading of an input of which no more than a buffer's length is wanted.
ghost use Rattle.std.specs.Prelude.{◌≤◌, length, IfOk};

use std::io;
use std::io::Read;

/// Reads until the buffer is full or the input ends, and says how many bytes came. The loop stands here, since the
/// contract of `read_to_end` does not bound what comes of an input whose bytes no clause can know.
pub fn fill(input: &mut io::Stdin, buffer: &mut [u8]) -> io::Result<usize>
    ensures { IfOk result (λ n. n ≤ length buffer.new) }
{
    let mut used = 0;
    while used < buffer.len() {
        let got = input.read(&mut buffer[used..])?;
        if got == 0 {
            break;
        }
        used += got;
    }
    Ok(used)
}
