//! The page of a node.
ghost use Rattle.std.specs.Prelude.{◌≡◌, ◌≤◌, length, IfOk, OnOk};
ghost use Rattle.tray.specs.Filled.{filled, rest};
ghost use Rattle.rules.specs.declared.Refusal.TheVariants.{NodeOutOfRange};
ghost use Rattle.wall.specs.View.{state_of};
ghost use Rattle.page.specs.Call.{PageCall, Composed};
ghost use Rattle.pagetext.specs.Reading.{shown, read_page};
ghost use Rattle.pagetext.specs.Text.{page_text};

use crate::lines::{put_entry, put_node};
use chooser::Chooser;
use rules::Refusal;
use tray::Tray;
use wall::Wall;
use wiring::Wiring;

/// The most bytes that a page has: 29 for its first line, and 25 for each of 64 entries.
pub const PAGE_MAX: usize = 1629;

// Writes the page of a node on a sheet. The text stands whole only where the node is in range.
// No Model of Wall: its view could not name a member of a bound.
pub(crate) fn compose<W: Wiring, C: Chooser>(
    wall: &Wall<W, C>,
    node: u8,
    sheet: &mut Tray<u8>,
) -> Result<(), Refusal>
    requires { 1629 ≤ length (rest sheet.old) }
    ensures { Composed (W.Wiring.layout wall.now.wiring).count (state_of (W.Wiring.layout wall.now.wiring) wall.now.core) node result sheet.old sheet.new }
{
    let mode = wall.mode(node)?;
    let marks = wall.marks(node)?;
    put_node(sheet, node, mode, marks);
    for destination in 0..wall.node_count() {
        let entry = wall.entry(node, destination)?;
        put_entry(sheet, destination, entry);
    }
    Ok(())
}

/// Puts the page of a node into a tray, and answers its length. Refused: node out of range (12), a tray with fewer
/// free places than the page has bytes (15). A refusal alters nothing. What is read back from a page is what there is
/// to tell of the node.
///
/// ```
/// let length = page(&wall, 1, &mut tray)?;
/// ```
pub fn page<W: Wiring, C: Chooser>(
    wall: &Wall<W, C>,
    node: u8,
    tray: &mut Tray<u8>,
) -> Result<usize, Refusal>
    ensures does { PageCall (W.Wiring.layout wall.now.wiring).count (state_of (W.Wiring.layout wall.now.wiring) wall.now.core) node result tray.old tray.new }
    ensures reads { OnOk result (read_page (page_text (W.Wiring.layout wall.now.wiring).count (state_of (W.Wiring.layout wall.now.wiring) wall.now.core) node) ≡ shown (W.Wiring.layout wall.now.wiring).count (state_of (W.Wiring.layout wall.now.wiring) wall.now.core) node) }
    ensures short { IfOk result (λ n. n ≤ 1629) }
{
    let mut bytes = [0; PAGE_MAX];
    let mut sheet = Tray::new(&mut bytes);
    compose(wall, node, &mut sheet)?;
    let text = sheet.as_slice();
    tray.put_all(text).map_err(|_| Refusal::TrayTooSmall)?;
    Ok(text.len())
}
