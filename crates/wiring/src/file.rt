//! The reader of wall files. A file is a header of seven bytes (the mark `TWL`, version 1 in two
//! bytes with the high one first, the node count, the cable count) and four bytes for each cable:
//! node, port, node, port. specs/File.antt says what the reader answers, byte by byte, and
//! specs/Spells.antt what it is for a file to spell a wiring.
ghost use Rattle.std.specs.Prelude.{◌≡◌, ℕ, ◌+◌, ◌*◌, ◌<◌, ◌≤◌, List, length, Some, None, Ok, Err, MatchResult};
ghost use Rattle.wiring.specs.Cables.{bare, join, cabled};
ghost use Rattle.wiring.specs.Spells.{Spelling, Unspelled};
ghost use Rattle.wiring.specs.Wired.{wired};
ghost use Rattle.wiring.specs.File.{mark_fault, header_fault, nodes_said, cable_at, refused_or, end_problem, taken_problem, problem, lay, Gives, read_table, read_file};

use crate::cable::Cable;
use crate::cables::{CableList, slot_of};
use fault::{CableFault, CableProblem, HeaderFault, WallFault};

// The check of the mark, letter by letter.
fn check_mark(bytes: &[u8]) -> Result<(), HeaderFault>
    requires { 3 ≤ length bytes.now }
    ensures { result ≡ refused_or (mark_fault bytes.now) tt }
{
    for (at, letter) in b"TWL".iter().enumerate() {
        if bytes[at] != *letter {
            return Err(HeaderFault::Mark(at as u8));
        }
    }
    Ok(())
}

// The checks of the header, in the order of their numbers.
fn check_header(bytes: &[u8]) -> Result<(), HeaderFault>
    ensures { MatchResult result (λ _. header_fault bytes.now ≡ None) (λ f. header_fault bytes.now ≡ Some f) }
{
    let length = bytes.len();
    if length < 7 {
        return Err(HeaderFault::Short(length as u8));
    }
    check_mark(bytes)?;
    if bytes[3] != 0 || bytes[4] != 1 {
        return Err(HeaderFault::Version);
    }
    if !(1..=64).contains(&bytes[5]) {
        return Err(HeaderFault::NodeCount);
    }
    if bytes[6] > 128 {
        return Err(HeaderFault::CableCount);
    }
    if length != 7 + 4 * bytes[6] as usize {
        return Err(HeaderFault::Length);
    }
    Ok(())
}

// The four bytes of a cable. The index is also that of a fault, so cables are gone through by it and not by chunks.
fn cable_in(bytes: &[u8], index: u8) -> Cable
    requires { 7 + 4 * index + 4 ≤ length bytes.now }
    ensures { result ≡ cable_at bytes.now index }
{
    let at = 7 + 4 * index as usize;
    Cable {
        start: (bytes[at], bytes[at + 1]),
        end: (bytes[at + 2], bytes[at + 3]),
    }
}

// One cable more in a table, at both of its ends.
fn join(ends: &mut [Option<(u8, u8)>; 256], cable: Cable)
    requires start { (cable.start.0 < 64) × (cable.start.1 < 4) }
    requires end { (cable.end.0 < 64) × (cable.end.1 < 4) }
    ensures { ends.new ≡ join ends.old cable }
{
    ends[slot_of(cable.start)] = Some(cable.end);
    ends[slot_of(cable.end)] = Some(cable.start);
}

impl CableList {
    // So many nodes and no cable: a list before its file's first cable.
    fn without_cables(count: u8) -> CableList
        requires some { 1 ≤ count }
        requires few { count ≤ 64 }
        ensures count { result.count ≡ count }
        ensures ends { result.ends ≡ bare }
    {
        CableList {
            count,
            ends: [None; 256],
        }
    }

    // An end is a node that there is and one of its ports; `byte` is where the cable has it.
    fn check_end(&self, end: (u8, u8), byte: u8) -> Result<(), (CableProblem, u8)>
        requires { byte < 3 }
        ensures { result ≡ refused_or (end_problem self.now.count end byte) tt }
    {
        if end.0 >= self.count {
            return Err((CableProblem::NoSuchNode, byte));
        }
        if end.1 >= 4 {
            return Err((CableProblem::NoSuchPort, byte + 1));
        }
        Ok(())
    }

    // No cable is at an end yet; `byte` is where the cable has its port.
    fn check_bare(&self, end: (u8, u8), byte: u8) -> Result<(), (CableProblem, u8)>
        requires node { end.0 < 64 }
        requires port { end.1 < 4 }
        ensures { result ≡ refused_or (taken_problem self.now.ends end byte) tt }
    {
        if self.ends[slot_of(end)].is_some() {
            return Err((CableProblem::PortTaken, byte));
        }
        Ok(())
    }

    // Whether a cable can be laid, else what is wrong with it and at which of its bytes: its nodes
    // and ports in order, then whether both ends are on one node, then whether a port is taken.
    fn check(&self, cable: Cable) -> Result<(), (CableProblem, u8)>
        ensures { result ≡ refused_or (problem self.now.count self.now.ends cable) tt }
    {
        self.check_end(cable.start, 0)?;
        self.check_end(cable.end, 2)?;
        if cable.start.0 == cable.end.0 {
            return Err((CableProblem::OneNode, 0));
        }
        self.check_bare(cable.start, 1)?;
        self.check_bare(cable.end, 3)
    }

    // Lays one cable of a file, at both of its ends, or says what is wrong with it.
    fn lay(&mut self, index: u8, cable: Cable) -> Result<(), CableFault>
        ensures count { self.new.count ≡ self.old.count }
        ensures ends { Gives (lay self.old.count index self.old.ends cable) result self.new.ends }
    {
        self.check(cable).map_err(|(problem, byte)| CableFault {
            problem,
            index,
            place: 7 + 4 * index as u16 + byte as u16,
        })?;
        join(&mut self.ends, cable);
        Ok(())
    }
}

// The list that a file gives: its cables are laid one after another, up to the first that is
// refused.
fn read_list(bytes: &[u8]) -> Result<CableList, HeaderFault>
    ensures { MatchResult result (λ l. (l.count ≡ nodes_said bytes.now) × (read_table bytes.now ≡ Ok l.ends)) (λ f. read_table bytes.now ≡ Err f) }
{
    check_header(bytes)?;
    let mut list = CableList::without_cables(bytes[5]);
    for index in 0..bytes[6] {
        list.lay(index, cable_in(bytes, index))?;
    }
    Ok(list)
}

impl CableList {
    /// Reads a wall file into this list. A file is accepted exactly when it spells a wiring, and the
    /// list then is that wiring. A refused file alters nothing.
    pub fn read(&mut self, bytes: &[u8]) -> Result<(), WallFault>
        ensures answer { MatchResult result (λ _. read_file bytes.now ≡ Ok (wired self.new)) (λ f. (read_file bytes.now ≡ Err f) × (self.new ≡ self.old)) }
        ensures spelled { MatchResult result (λ _. Spelling bytes.now (wired self.new)) (λ _. Unspelled bytes.now) }
    {
        *self = read_list(bytes)?;
        Ok(())
    }
}
