//! The sheet that a page is written on: a tray that is known to have room, so that no put is refused. How much room
//! stands at each function, since each text has its own most bytes.
ghost use Rattle.std.specs.Prelude.{◌≤◌, ◌++◌, length};
ghost use Rattle.tray.specs.Filled.{filled, rest};
ghost use Rattle.page.specs.Sheet.{Writes};

use tray::Tray;

// Writes some bytes.
#[tactic(auto, using(crate::proofs::Writing::writes_fitting))]
pub(crate) fn put_text(sheet: &mut Tray<u8>, text: &[u8])
    requires { length text.now ≤ length (rest sheet.old) }
    ensures { Writes (length text.now) (filled sheet.old ++ text.now) sheet.old sheet.new }
{
    // It fits, so it is not refused.
    let _ = sheet.put_all(text);
}
