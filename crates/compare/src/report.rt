//! What is printed.
use crate::cuts::Cut;
use crate::tally::{Difference, Found, Tally};
use std::{fmt, io};

// A root.
#[derive(Clone, Copy)]
struct Root(u8);

impl fmt::Display for Root {
    fn fmt<W: fmt::Write>(&self, f: &mut fmt::Formatter<W>) -> fmt::Result {
        let root = self.0;
        write!(f, "root {root}")
    }
}

// A value, or that there is none.
#[derive(Clone, Copy)]
struct OrNone<T>(Option<T>);

impl<T: fmt::Display> fmt::Display for OrNone<T> {
    fn fmt<W: fmt::Write>(&self, f: &mut fmt::Formatter<W>) -> fmt::Result {
        match &self.0 {
            None => write!(f, "none"),
            Some(value) => write!(f, "{value}"),
        }
    }
}

fn print_file(rt: &HostRuntime, bytes: &[u8]) -> io::Result<()> {
    print!(rt; "  wall file")?;
    for byte in bytes {
        print!(rt; " {byte:02x}")?;
    }
    print!(rt; "\n")
}

fn print_cuts(rt: &HostRuntime, cuts: &[Cut]) -> io::Result<()> {
    for cut in cuts {
        let slots = cut.slots;
        let node = cut.node;
        let port = cut.port;
        println!(rt; "  after {slots} slots cut node {node} port {port}")?;
    }
    Ok(())
}

fn print_difference(rt: &HostRuntime, difference: Difference) -> io::Result<()> {
    match difference {
        Difference::Calm { wall, net } => println!(rt; "  calm: wall {wall}, flags {net}"),
        Difference::Root { node, wall, net } => {
            let wall = OrNone(wall.map(Root));
            let net = OrNone(net.map(Root));
            println!(rt; "  node {node}: wall {wall}, flags {net}")
        }
        Difference::Marks { node, wall, net } => match wall {
            Some(wall) => println!(rt; "  node {node} marks: wall {wall}, flags {net}"),
            None => println!(rt; "  node {node} marks: wall ????, flags {net}"),
        },
        Difference::Entry {
            node,
            to,
            wall,
            net,
        } => {
            let (wall, net) = (OrNone(wall), OrNone(net));
            println!(rt; "  node {node} for {to}: wall {wall}, flags {net}")
        }
    }
}

fn print_found(rt: &HostRuntime, found: &Found) -> io::Result<()> {
    println!(rt; "the first difference:")?;
    print_file(rt, found.file.as_slice())?;
    print_cuts(rt, found.cuts.as_slice())?;
    print_difference(rt, found.difference)
}

/// Prints what was compared, and the first difference if there is one.
pub(crate) fn print_tally(rt: &HostRuntime, lists: u32, tally: &Tally) -> io::Result<()> {
    let walls = tally.walls;
    let recoveries = tally.recoveries;
    let cuts = tally.cuts;
    let roots = tally.roots;
    let marks = tally.marks;
    let entries = tally.entries;
    let left_out = tally.left_out;
    let differ = tally.differ;
    println!(rt; "walls compared: {walls} (all 64 meshes, {lists} random cable lists)")?;
    println!(rt; "recoveries compared: {recoveries}, after {cuts} cuts")?;
    println!(rt; "roots compared: {roots}")?;
    println!(rt; "marks compared: {marks}")?;
    println!(rt; "entries compared: {entries}")?;
    println!(rt; "entries left out: {left_out}")?;
    println!(rt; "differ: {differ}")?;
    match &tally.found {
        Some(found) => print_found(rt, found),
        None => Ok(()),
    }
}
