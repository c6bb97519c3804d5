//! The lines of a page. pagetext/specs/Text.antt has every text.
ghost use Rattle.std.specs.Prelude.{◌<◌, ◌≤◌, ◌++◌, length};
ghost use Rattle.tray.specs.Filled.{filled, rest};
ghost use Rattle.page.specs.Sheet.{Writes};
ghost use Rattle.pagetext.specs.Laws.{ByteRoot, ByteCount};
ghost use Rattle.pagetext.specs.Text.{numeral, root_text, marks_text, with_node, with_port, with_ports, with_line, with_entry};

use crate::numbers::put_number;
use crate::sheet::put_text;
use chooser::PortSet;
use rules::{Mark, Mode};
use tray::Tray;

// Writes the root of a node, or a dash for a new one.
fn put_root(sheet: &mut Tray<u8>, mode: Mode)
    requires { 3 ≤ length (rest sheet.old) }
    ensures written { Writes 3 (filled sheet.old ++ root_text mode) sheet.old sheet.new }
    ensures byte { ByteRoot mode }
{
    match mode.root() {
        None => put_text(sheet, b"-"),
        Some(root) => put_number::<3>(sheet, u16::from(root)),
    }
}

// Writes the letter of each mark.
fn put_marks(sheet: &mut Tray<u8>, marks: [Mark; 4])
    requires { 4 ≤ length (rest sheet.old) }
    ensures { Writes 4 (filled sheet.old ++ marks_text marks) sheet.old sheet.new }
{
    put_text(sheet, &marks.map(|mark| mark.letter()));
}

// Writes the first line of a page.
pub(crate) fn put_node(sheet: &mut Tray<u8>, node: u8, mode: Mode, marks: [Mark; 4])
    requires small { node < 100 }
    requires free { 29 ≤ length (rest sheet.old) }
    ensures written { Writes 29 (with_node (filled sheet.old) node mode marks) sheet.old sheet.new }
    ensures byte { ByteRoot mode }
{
    put_text(sheet, b"NODE ");
    put_number::<2>(sheet, u16::from(node));
    put_text(sheet, b" ");
    put_text(sheet, &[mode.letter()]);
    put_text(sheet, b" ROOT ");
    put_root(sheet, mode);
    put_text(sheet, b" MARK ");
    put_marks(sheet, marks);
    put_text(sheet, b"\n");
}

// Writes a port's digit, if the port is in the set.
fn put_port(sheet: &mut Tray<u8>, ports: PortSet, port: u8)
    requires small { port < 4 }
    requires free { 1 ≤ length (rest sheet.old) }
    ensures { Writes 1 (with_port (filled sheet.old) ports port) sheet.old sheet.new }
{
    if ports.contains(port) {
        put_text(sheet, &[b'0' + port]);
    }
}

// Writes the ports of a set as ascending digits.
#[tactic(auto, using(crate::proofs::Growing::no_ports, crate::proofs::Growing::more_ports, crate::proofs::Growing::all_ports))]
fn put_ports(sheet: &mut Tray<u8>, ports: PortSet)
    requires { 4 ≤ length (rest sheet.old) }
    ensures { Writes 4 (with_ports (filled sheet.old) ports) sheet.old sheet.new }
{
    for port in 0..4 {
        put_port(sheet, ports, port);
    }
}

// Writes the line of an entry.
fn put_line(sheet: &mut Tray<u8>, destination: u8, ports: PortSet, count: u8)
    requires small { destination < 100 }
    requires free { 25 ≤ length (rest sheet.old) }
    ensures written { Writes 25 (with_line (filled sheet.old) destination ports count) sheet.old sheet.new }
    ensures byte { count < 256 }
{
    put_text(sheet, b"TO ");
    put_number::<2>(sheet, u16::from(destination));
    put_text(sheet, b" PORT ");
    put_ports(sheet, ports);
    put_text(sheet, b" HOPS ");
    put_number::<3>(sheet, u16::from(count));
    put_text(sheet, b"\n");
}

// Writes the line of what a table has for a destination, if it has something.
pub(crate) fn put_entry(sheet: &mut Tray<u8>, destination: u8, entry: Option<(PortSet, u8)>)
    requires small { destination < 100 }
    requires free { 25 ≤ length (rest sheet.old) }
    ensures written { Writes 25 (with_entry (filled sheet.old) destination entry) sheet.old sheet.new }
    ensures byte { ByteCount entry }
{
    if let Some((ports, count)) = entry {
        put_line(sheet, destination, ports, count);
    }
}
