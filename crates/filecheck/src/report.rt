//! What is printed of a wall file. specs/Report.antt has every text.
ghost use Rattle.std.specs.Prelude.{◌≡◌, is_ok, IfOk, Some, string_bytes};
ghost use Rattle.filecheck.specs.Report.{lead_text, line_text, node_line, report_text, said, verdict_text};
ghost use Rattle.wiring.specs.File.{read_file};

use std::alloc::{AllocError, Global};
use std::fmt;
use wiring::{CableList, Wiring, cable_count};

// Where a port leads, as text.
#[derive(Clone, Copy)]
struct Lead(Option<(u8, u8)>);

impl fmt::Display for Lead {
    ghost output = { λ x. Some (lead_text x.0) };

    fn fmt<W: fmt::Write>(&self, f: &mut fmt::Formatter<W>) -> fmt::Result {
        match self.0 {
            None => write!(f, "nothing"),
            Some((node, port)) => write!(f, "node {node} port {port}"),
        }
    }
}

// The text names the four ports one by one.
fn line(
    heap: Global,
    node: u8,
    north: Lead,
    east: Lead,
    south: Lead,
    west: Lead,
) -> Result<String, AllocError>
    ensures { IfOk result (λ s. string_bytes s ≡ line_text node north.0 east.0 south.0 west.0) }
{
    format!(in heap;
        "node {node}: port 0 to {north}, port 1 to {east}, port 2 to {south}, port 3 to {west}\n"
    )
}

// The line of a node.
fn node_line<W: Wiring>(heap: Global, wiring: &W, node: u8) -> Result<String, AllocError>
    ensures { IfOk result (λ s. string_bytes s ≡ node_line (W.Wiring.layout wiring.now) node) }
{
    let north = Lead(wiring.far_end(node, 0));
    let east = Lead(wiring.far_end(node, 1));
    let south = Lead(wiring.far_end(node, 2));
    let west = Lead(wiring.far_end(node, 3));
    line(heap, node, north, east, south, west)
}

/// What a wiring is, in full: its counts, and a line for each node that says where its ports lead.
pub fn report<W: Wiring>(heap: Global, wiring: &W) -> Result<String, AllocError>
    ensures { IfOk result (λ s. string_bytes s ≡ report_text (W.Wiring.layout wiring.now)) }
{
    let nodes = wiring.node_count();
    let cables = cable_count(wiring);
    let mut text = format!(in heap; "nodes {nodes}, cables {cables}\n")?;
    for node in 0..nodes {
        let line = node_line(heap, wiring, node)?;
        text.push_str(line.as_str())?;
    }
    Ok(text)
}

/// Reads a wall file, and says what it spells or what is wrong with it: a text to be printed, as a
/// good one or as a refusal.
pub fn check(heap: Global, bytes: &[u8]) -> Result<Result<String, String>, AllocError>
    ensures { IfOk result (λ v. (said v ≡ verdict_text (read_file bytes.now)) × (is_ok v ≡ is_ok (read_file bytes.now))) }
{
    let mut list = CableList::new();
    match list.read(bytes) {
        Ok(()) => Ok(Ok(report(heap, &list)?)),
        Err(fault) => Ok(Err(format!(in heap; "refused: {fault}\n")?)),
    }
}
