//! What is printed of a wall file: the pages of every node, or why there are none.
ghost use Rattle.std.specs.Prelude.{◌≡◌, ◌<◌, ◌≤◌, length, is_ok};
ghost use Rattle.tray.specs.Filled.{filled, rest};
ghost use Rattle.wiring.specs.File.{read_file};
ghost use Rattle.wall.specs.View.{state_of};
ghost use Rattle.page.specs.Sheet.{Writes};
ghost use Rattle.pagetext.specs.Text.{with_wall, with_pages, with_refused};
ghost use Rattle.page.specs.Pages.{printed_text, Prints, PagesCall};

use crate::file::wall_of;
use crate::node_page::compose;
use crate::numbers::put_number;
use crate::sheet::put_text;
use chooser::Chooser;
use fault::WallFault;
use tray::{Tray, TrayFull};
use wall::Wall;
use wiring::Wiring;

/// The most bytes that are printed of a wall: 8 for its first line, and 64 pages.
pub const WALL_MAX: usize = 104264;

// Writes the first line.
fn put_wall(sheet: &mut Tray<u8>, count: u8)
    requires small { count < 100 }
    requires free { 8 ≤ length (rest sheet.old) }
    ensures { Writes 8 (with_wall (filled sheet.old) count) sheet.old sheet.new }
{
    put_text(sheet, b"WALL ");
    put_number::<2>(sheet, u16::from(count));
    put_text(sheet, b"\n");
}

// Writes why a file is refused.
fn put_refused(sheet: &mut Tray<u8>, fault: WallFault)
    requires { 21 ≤ length (rest sheet.old) }
    ensures { Writes 21 (with_refused (filled sheet.old) fault) sheet.old sheet.new }
{
    put_text(sheet, b"REFUSED ");
    put_number::<3>(sheet, u16::from(fault.number()));
    put_text(sheet, b" AT ");
    put_number::<5>(sheet, fault.place());
    put_text(sheet, b"\n");
}

// Writes the pages of all nodes, by rising node.
fn put_pages<W: Wiring, C: Chooser>(sheet: &mut Tray<u8>, wall: &Wall<W, C>)
    requires { 104256 ≤ length (rest sheet.old) }
    ensures { Writes 104256 (with_pages (filled sheet.old) (W.Wiring.layout wall.now.wiring).count (state_of (W.Wiring.layout wall.now.wiring) wall.now.core).nodes (W.Wiring.layout wall.now.wiring).count) sheet.old sheet.new }
{
    for node in 0..wall.node_count() {
        // The node is one of the wall's, so it is not refused.
        let _ = compose(wall, node, sheet);
    }
}

// Writes what is printed of a file. Of a refused file the answer is its fault.
fn put_file(sheet: &mut Tray<u8>, file: &[u8]) -> Result<(), WallFault>
    requires { 104264 ≤ length (rest sheet.old) }
    ensures { Prints (read_file file.now) (is_ok result) sheet.old sheet.new }
{
    match wall_of(file) {
        Ok(wall) => {
            put_wall(sheet, wall.node_count());
            put_pages(sheet, &wall);
            Ok(())
        }
        Err(fault) => {
            put_refused(sheet, fault);
            Err(fault)
        }
    }
}

/// Puts what is printed of a wall file into a tray: the count of its nodes and the page of each, after 2N - 1 slots with
/// the lowest-port chooser; or, of a refused file, the refusal's number and place. Answers whether the file is good.
/// Refused: a tray with fewer free places than there are bytes (15), which with `WALL_MAX` free places never happens. A
/// refusal alters nothing.
///
/// ```
/// let good = pages(&file, &mut tray)?;
/// ```
pub fn pages(file: &[u8], tray: &mut Tray<u8>) -> Result<bool, TrayFull>
    ensures does { PagesCall (read_file file.now) result tray.old tray.new }
    ensures short { length (printed_text (read_file file.now)) ≤ 104264 }
{
    let mut bytes = [0; WALL_MAX];
    let mut sheet = Tray::new(&mut bytes);
    let good = put_file(&mut sheet, file).is_ok();
    tray.put_all(sheet.as_slice())?;
    Ok(good)
}
