//! Every refusal of a wall file with its number, layer, index and place, and the list left as it
//! stood; the largest file; meshes.

use fault::{Layer, WallFault};
use std::process::Abort;
use std::test::Fail;
use wiring::{CableList, Mesh, Wiring, cable_count};

// Three nodes, each cabled to the other two.
const TRIANGLE: [u8; 19] = [
    0x54, 0x57, 0x4c, 0, 1, 3, 3, 0, 1, 1, 3, 0, 2, 2, 0, 1, 2, 2, 1,
];

// Two nodes and two cables between them.
const PAIR: [u8; 15] = [0x54, 0x57, 0x4c, 0, 1, 2, 2, 0, 0, 1, 0, 0, 3, 1, 2];

// The list is the pair, in full.
fn is_pair(rt: &impl Abort, list: &CableList) {
    assert_eq!(rt; list.node_count(), 2);
    assert_eq!(rt; cable_count(list), 2);
    assert_eq!(rt; list.far_end(0, 0), Some((1, 0)));
    assert_eq!(rt; list.far_end(1, 0), Some((0, 0)));
    assert_eq!(rt; list.far_end(0, 3), Some((1, 2)));
    assert_eq!(rt; list.far_end(1, 2), Some((0, 3)));
    assert_eq!(rt; list.far_end(0, 4), None);
    assert_eq!(rt; list.far_end(2, 0), None);
}

// What is told of a refusal.
#[derive(Clone, Copy, PartialEq, Eq, Debug)]
struct Told {
    number: u8,
    layer: Layer,
    index: u8,
    place: u16,
}

impl From<WallFault> for Told {
    fn from(fault: WallFault) -> Told {
        Told {
            number: fault.number(),
            layer: fault.layer(),
            index: fault.index(),
            place: fault.place(),
        }
    }
}

// A refusal that the header tells.
fn header(number: u8, place: u16) -> Told {
    Told {
        number,
        layer: Layer::InHeader,
        index: 0,
        place,
    }
}

// A refusal that a cable tells.
fn cable(number: u8, index: u8, place: u16) -> Told {
    Told {
        number,
        layer: Layer::InCable,
        index,
        place,
    }
}

// The reader refuses these bytes so, and leaves the list as it stood.
fn refused(rt: &impl Abort, bytes: &[u8], told: Told) -> Result<(), Fail> {
    let mut list = CableList::new();
    assert!(rt; list.read(&PAIR).is_ok());
    let Err(fault) = list.read(bytes) else {
        return Err(Fail::new("accepted"));
    };
    assert_eq!(rt; Told::from(fault), told);
    is_pair(rt, &list);
    Ok(())
}

// The same of the triangle's file with one byte changed.
fn refused_with(rt: &impl Abort, at: usize, byte: u8, told: Told) -> Result<(), Fail> {
    let mut bytes = TRIANGLE;
    assert!(rt; at < 19);
    bytes[at] = byte;
    refused(rt, &bytes, told)
}

#[test]
fn reads_the_triangle(rt: HostRuntime) {
    let mut list = CableList::new();
    assert_eq!(rt; list.node_count(), 1);
    assert_eq!(rt; cable_count(&list), 0);
    assert!(rt; list.read(&TRIANGLE).is_ok());
    assert_eq!(rt; list.node_count(), 3);
    assert_eq!(rt; cable_count(&list), 3);
    assert_eq!(rt; list.far_end(0, 1), Some((1, 3)));
    assert_eq!(rt; list.far_end(1, 3), Some((0, 1)));
    assert_eq!(rt; list.far_end(0, 2), Some((2, 0)));
    assert_eq!(rt; list.far_end(2, 1), Some((1, 2)));
    assert_eq!(rt; list.far_end(0, 0), None);
}

#[test]
fn refuses_every_truncation_and_a_byte_too_many(rt: HostRuntime) -> Result<(), Fail> {
    for length in 0..7u8 {
        refused(&rt, &TRIANGLE[0..length as usize], header(1, length as u16))?;
    }
    for length in 7..19usize {
        refused(&rt, &TRIANGLE[0..length], header(6, 6))?;
    }
    refused(&rt, &[0x54, 0x57, 0x4c, 0, 1, 1, 0, 0], header(6, 6))
}

#[test]
fn refuses_a_bad_byte_of_the_header(rt: HostRuntime) -> Result<(), Fail> {
    for (at, byte, number, place) in [
        (0, 0x55, 2, 0),
        (1, 0x54, 2, 1),
        (2, 0x4d, 2, 2),
        (3, 1, 3, 3),
        (4, 0, 3, 3),
        (4, 2, 3, 3),
        (5, 0, 4, 5),
        (5, 65, 4, 5),
        (6, 129, 5, 6),
        (6, 2, 6, 6),
        (6, 4, 6, 6),
    ] {
        refused_with(&rt, at, byte, header(number, place))?;
    }
    Ok(())
}

#[test]
fn refuses_a_bad_byte_of_a_cable(rt: HostRuntime) -> Result<(), Fail> {
    for (at, byte, number, index, place) in [
        // a node that there is not, at each place
        (7, 3, 7, 0, 7),
        (9, 3, 7, 0, 9),
        (11, 255, 7, 1, 11),
        (13, 3, 7, 1, 13),
        (15, 64, 7, 2, 15),
        (17, 3, 7, 2, 17),
        // a port that there is not, at each place
        (8, 4, 8, 0, 8),
        (10, 4, 8, 0, 10),
        (12, 255, 8, 1, 12),
        (14, 4, 8, 1, 14),
        (16, 4, 8, 2, 16),
        (18, 4, 8, 2, 18),
        // both ends on one node
        (9, 0, 9, 0, 7),
        (13, 0, 9, 1, 11),
        (17, 1, 9, 2, 15),
        // a port taken: by a first end and by a second one, at a first end and at a second one
        (12, 1, 10, 1, 12),
        (16, 3, 10, 2, 16),
        (18, 0, 10, 2, 18),
    ] {
        refused_with(&rt, at, byte, cable(number, index, place))?;
    }
    Ok(())
}

#[test]
fn checks_in_order(rt: HostRuntime) -> Result<(), Fail> {
    // A cable with every fault is refused for its first byte, and so on through its bytes.
    let mut bytes = [0x54, 0x57, 0x4c, 0, 1, 2, 1, 2, 4, 2, 4];
    refused(&rt, &bytes, cable(7, 0, 7))?;
    bytes[7] = 1;
    refused(&rt, &bytes, cable(8, 0, 8))?;
    bytes[8] = 3;
    refused(&rt, &bytes, cable(7, 0, 9))?;
    bytes[9] = 1;
    refused(&rt, &bytes, cable(8, 0, 10))?;
    bytes[10] = 3;
    refused(&rt, &bytes, cable(9, 0, 7))?;
    bytes[9] = 0;
    let mut list = CableList::new();
    assert!(rt; list.read(&bytes).is_ok());
    // A header with every fault is refused for its length first.
    refused(&rt, &[0, 0, 0, 0, 0, 0], header(1, 6))?;
    refused(&rt, &[0, 0, 0, 0, 0, 0, 200], header(2, 0))?;
    refused(&rt, &[0x54, 0x57, 0x4c, 9, 9, 0, 200], header(3, 3))?;
    refused(&rt, &[0x54, 0x57, 0x4c, 0, 1, 0, 200], header(4, 5))?;
    refused(&rt, &[0x54, 0x57, 0x4c, 0, 1, 1, 200], header(5, 6))?;
    // The first bad cable counts, and both ends of a cable on taken ports are refused at the first.
    refused_with(&rt, 8, 2, cable(10, 1, 12))
}

// A file of 64 nodes and 128 cables: nodes 2i and 2i + 1 are joined port by port.
fn pairs() -> [u8; 519] {
    let mut bytes = [0; 519];
    bytes[..7].copy_from_slice(&[0x54, 0x57, 0x4c, 0, 1, 64, 128]);
    for (i, cable) in (0..128u8).zip(bytes[7..].chunks_exact_mut(4)) {
        cable.copy_from_slice(&[i / 4 * 2 + 1, i % 4, i / 4 * 2, i % 4]);
    }
    bytes
}

#[test]
fn accepts_64_nodes_with_128_cables(rt: HostRuntime) {
    let mut list = CableList::new();
    assert!(rt; list.read(&pairs()).is_ok());
    assert_eq!(rt; list.node_count(), 64);
    assert_eq!(rt; cable_count(&list), 128);
    for i in 0..32u8 {
        for port in 0..4u8 {
            assert_eq!(rt; list.far_end(2 * i, port), Some((2 * i + 1, port)));
            assert_eq!(rt; list.far_end(2 * i + 1, port), Some((2 * i, port)));
        }
    }
}

#[test]
fn meshes(rt: HostRuntime) -> Result<(), Fail> {
    let Ok(mesh) = Mesh::new(3, 2) else {
        return Err(Fail::new("a mesh of 3 by 2 is refused"));
    };
    assert_eq!(rt; mesh.node_count(), 6);
    assert_eq!(rt; cable_count(&mesh), 7);
    assert_eq!(rt; mesh.far_end(4, 0), Some((1, 2)));
    assert_eq!(rt; mesh.far_end(4, 1), Some((5, 3)));
    assert_eq!(rt; mesh.far_end(4, 2), None);
    assert_eq!(rt; mesh.far_end(4, 3), Some((3, 1)));
    assert_eq!(rt; mesh.far_end(4, 4), None);
    assert_eq!(rt; mesh.far_end(6, 0), None);
    for (columns, rows) in [(0, 1), (1, 0), (9, 1), (1, 9), (255, 255)] {
        let Err(fault) = Mesh::new(columns, rows) else {
            return Err(Fail::new("a mesh with a bad side is accepted"));
        };
        let told = Told {
            number: 11,
            layer: Layer::InWall,
            index: 0,
            place: 0,
        };
        assert_eq!(rt; Told::from(fault), told);
    }
    assert!(rt; Mesh::new(8, 8).is_ok());
    assert!(rt; Mesh::new(1, 1).is_ok());
    Ok(())
}
