//! The front of a script: a wiring, and then, if it is to be another than the lowest-port one, the
//! chooser.
use crate::input;
use crate::input::{MOST_LINES, Read};
use reply::{TurnedDown, cables_line, mesh_line};
use script::{Calls, Line, Picker, Question, as_byte};
use std::io::{BufReader, Stdin};
use wiring::{CableList, Mesh, Wiring};

/// A wiring of either kind.
#[derive(Clone, Copy)]
pub enum Wires {
    Mesh(Mesh),
    Cables(CableList),
}

/// What is put to a wall.
#[derive(Clone, Copy)]
pub enum Act {
    Make(Calls),
    Ask(Question),
}

/// What is put to a wall first, with the number of its line.
#[derive(Clone, Copy)]
pub struct Start {
    pub act: Act,
    pub number: u32,
}

/// What is needed to power a wall up, and where its script starts.
#[derive(Clone, Copy)]
pub struct Bench {
    pub wires: Wires,
    pub picker: Picker,
    pub start: Start,
}

// The mesh of so many columns and rows, if there is one.
fn mesh(rt: &HostRuntime, columns: u32, rows: u32) -> anyhow::Result<Option<Wires>> {
    let mesh = Mesh::new(as_byte(columns), as_byte(rows));
    let nodes = mesh.map(|mesh| mesh.node_count());
    let nodes = nodes.map_err(TurnedDown::by_number);
    rt.print(mesh_line(rt.alloc(), columns, rows, nodes)?)?;
    Ok(mesh.ok().map(Wires::Mesh))
}

// The wiring of a wall file, if that is a good one.
fn cables(rt: &HostRuntime, bytes: &[u8]) -> anyhow::Result<Option<Wires>> {
    let mut list = CableList::new();
    let read = list.read(bytes);
    let nodes = read.map(|()| list.node_count());
    let nodes = nodes.map_err(TurnedDown::at_place);
    rt.print(cables_line(rt.alloc(), nodes)?)?;
    Ok(read.ok().map(|()| Wires::Cables(list)))
}

/// Reads the front of a script, up to its first call or question. Nothing where it has none.
pub fn set_up(rt: &HostRuntime, input: &mut BufReader<Stdin>) -> anyhow::Result<Option<Bench>> {
    let mut wires = None;
    let mut picker = None;
    for number in 1..=MOST_LINES {
        let Some(read) = input::next_line(rt, input, number)? else {
            return Ok(None);
        };
        let Read { bytes: text, line } = read;
        // By reference: a copy of the wiring is made for the bench alone.
        let (wires, act) = match (line, &wires) {
            (Line::Blank, _) => continue,
            (Line::Mesh { columns, rows }, None) => {
                wires = mesh(rt, columns, rows)?;
                continue;
            }
            (Line::Cables(bytes), None) => {
                wires = cables(rt, bytes.as_slice())?;
                continue;
            }
            (Line::Chooser(chosen), Some(_)) if picker.is_none() => {
                picker = Some(chosen);
                continue;
            }
            (Line::Make(calls), Some(wires)) => (*wires, Act::Make(calls)),
            (Line::Ask(question), Some(wires)) => (*wires, Act::Ask(question)),
            _ => return input::unreadable(rt, number, text.as_slice()),
        };
        let picker = picker.unwrap_or(Picker::Lowest);
        let start = Start { act, number };
        return Ok(Some(Bench {
            wires,
            picker,
            start,
        }));
    }
    input::too_long(rt)
}
