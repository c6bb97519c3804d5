//! The page of one node of the wall that a file spells.
ghost use Rattle.std.specs.Prelude.{◌≡◌, Ok, Err, MatchResult};
ghost use Rattle.wiring.specs.File.{read_file};
ghost use Rattle.wiring.specs.Wired.{wired};
ghost use Rattle.wall.specs.View.{state_of};
ghost use Rattle.page.specs.Pages.{page_fault_number, settled_state, FilePage};

use crate::node_page::page;
use crate::powered::settled;
use crate::types::PageFault;
use chooser::LowestPort;
use fault::WallFault;
use tray::Tray;
use wall::Wall;
use wiring::CableList;

impl PageFault {
    /// The refusal's number.
    pub fn number(self) -> u8
        ensures { result ≡ page_fault_number self }
    {
        match self {
            PageFault::File(fault) => fault.number(),
            PageFault::Call(refusal) => refusal.number(),
        }
    }
}

// The wall that a file spells, once it had time to make its tables.
pub(crate) fn wall_of(file: &[u8]) -> Result<Wall<CableList, LowestPort>, WallFault>
    ensures { MatchResult result (λ wall. (read_file file.now ≡ Ok (wired wall.wiring)) × (state_of (wired wall.wiring) wall.core ≡ settled_state (wired wall.wiring))) (λ fault. read_file file.now ≡ Err fault) }
{
    let mut list = CableList::new();
    list.read(file)?;
    Ok(settled(list, LowestPort::new()))
}

/// Puts the page of a node into a tray, just as it is printed for the wall that this file spells, and answers its
/// length. Refused: the refusals of the file, then node out of range (12), then a tray with fewer free places than
/// the page has bytes (15). A refusal alters nothing.
///
/// ```
/// let length = page_of_file(&file, 1, &mut tray)?;
/// ```
pub fn page_of_file(file: &[u8], node: u8, tray: &mut Tray<u8>) -> Result<usize, PageFault>
    ensures { FilePage (read_file file.now) node result tray.old tray.new }
{
    let wall = wall_of(file)?;
    Ok(page(&wall, node, tray)?)
}
