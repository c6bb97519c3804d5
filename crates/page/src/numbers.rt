//! Numbers in decimal digits.
ghost use Rattle.std.specs.Prelude.{◌^◌, ◌<◌, ◌≤◌, ◌++◌, length};
ghost use Rattle.tray.specs.Filled.{filled, rest};
ghost use Rattle.page.specs.Sheet.{Writes};
ghost use Rattle.pagetext.specs.Text.{numeral};

use crate::sheet::put_text;
use itoa::Buffer;
use tray::Tray;

// Writes a number of at most so many digits.
pub(crate) fn put_number<const MOST: usize>(sheet: &mut Tray<u8>, n: u16)
    requires digits { n < 10 ^ MOST }
    requires some { 0 < MOST }
    requires free { MOST ≤ length (rest sheet.old) }
    ensures { Writes MOST (filled sheet.old ++ numeral n) sheet.old sheet.new }
{
    put_text(sheet, Buffer::new().format(n).as_bytes());
}
