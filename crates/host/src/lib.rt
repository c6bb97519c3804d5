//! The wall for a host that is written in C. It hands over the bytes of a wall file, a node's number and a
//! place for that node's page, and gets the page that the page program prints of this node.
//!
//! `host/wall_page.h` declares the call for C. What it answers and what it leaves in the host's memory is
//! said in `specs/Host.antt`, by the definitions of the pages themselves.
#![tactic(auto)]

ghost use Rattle.std.specs.Prelude.{◌≡◌, ◌≤◌, min, length, IfOk};
ghost use Rattle.host.specs.Host.{told, asked, place_after, Enough};

use page::{PageFault, page_of_file};
use tray::Tray;

/// Writes the page of one node of the wall that a file spells to the front of `out`. The answer is the page's
/// length, or the number of the refusal made negative, and then `out` is as it was. Refused, in this order: the
/// file (1 to 10), a node not below the node count (12), fewer places in `out` than the page has bytes (15), which
/// never comes where there are 2048.
///
/// For C: `int32_t wall_page(const uint8_t *file, size_t file_len, uint32_t node, uint8_t *out, size_t out_len)`.
#[unsafe(no_mangle)]
pub extern "C" fn wall_page(file: &[u8], node: u32, out: &mut [u8]) -> i32
    ensures answer { result ≡ told (asked file.now node (length out.old)) }
    ensures place { out.new ≡ place_after file.now node out.old }
    ensures enough { Enough 2048 }
{
    as_number(write_page(file, node, out))
}

// The page into the host's memory. Its length is small, so it fits the host's answer.
fn write_page(file: &[u8], node: u32, out: &mut [u8]) -> Result<usize, PageFault>
    ensures answer { result ≡ asked file.now node (length out.old) }
    ensures place { out.new ≡ place_after file.now node out.old }
    ensures short { IfOk result (λ n. n ≤ 2048) }
    ensures enough { Enough 2048 }
{
    let mut tray = Tray::new(out);
    page_of_file(file, narrow(node), &mut tray)
}

// A node's number in a byte. One that does not fit is taken for 255, which is no node of any wall.
#[tactic(auto, using(crate::proofs::Narrowed::narrowed))]
fn narrow(node: u32) -> u8
    ensures { result ≡ min node 255 }
{
    u8::try_from(node).unwrap_or(255)
}

// The answer as the host gets it.
fn as_number(answer: Result<usize, PageFault>) -> i32
    requires { IfOk answer (λ n. n ≤ 2048) }
    ensures { result ≡ told answer }
{
    match answer {
        Ok(length) => length as i32,
        Err(fault) => -i32::from(fault.number()),
    }
}
