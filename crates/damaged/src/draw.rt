//! Random bytes.
ghost use Rattle.std.specs.Prelude.{◌≡◌, ◌%◌};
ghost use Rattle.sample.specs.Mixing.{gone_on, mixed};

use crate::bytes::FileBytes;
use sample::Random;

/// A random byte.
pub(crate) fn draw_byte(random: &mut Random) -> u8
    ensures { result ≡ mixed (gone_on random.old.state) % 256 }
{
    random.under(256usize) as u8
}

/// Writes so many random bytes behind a file's end.
pub(crate) fn push_random(file: &mut FileBytes, random: &mut Random, bytes: usize) {
    for _ in 0..bytes {
        file.push(draw_byte(random));
    }
}
