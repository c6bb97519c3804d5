//! Each wall is a generic function, run over both wirings and both choosers. The triangle is no
//! mesh, and the steps with three posts are told for the lowest port alone.
use chooser::{Chooser, LowestPort, PortSet, RoundRobin};
use rules::{Act, Ending, Mark, Mode, Outcome, StepCounts};
use std::test::Fail;
use tray::Tray;
use wall::Wall;
use wiring::{CableList, Mesh, Wiring};

const TRIANGLE: [u8; 19] = [
    0x54, 0x57, 0x4C, 0, 1, 3, 3, 0, 1, 1, 3, 0, 2, 2, 0, 1, 2, 2, 1,
];

const SQUARE: [u8; 23] = [
    0x54, 0x57, 0x4C, 0, 1, 4, 4, 1, 3, 0, 1, 0, 2, 2, 0, 1, 2, 3, 0, 2, 1, 3, 3,
];

const PAIR: [u8; 11] = [0x54, 0x57, 0x4C, 0, 1, 2, 1, 0, 1, 1, 3];

const LONE: [u8; 7] = [0x54, 0x57, 0x4C, 0, 1, 1, 0];

const NOTHING: Outcome = Outcome {
    number: 0,
    ending: Ending::Delivered,
    node: 0,
    word: 0,
};

fn mesh(columns: u8, rows: u8) -> Result<Mesh, Fail> {
    Mesh::new(columns, rows).map_err(|_| Fail::new("a mesh was refused"))
}

fn cables(bytes: &[u8]) -> Result<CableList, Fail> {
    let mut list = CableList::new();
    list.read(bytes)
        .map_err(|_| Fail::new("a file was refused"))?;
    Ok(list)
}

fn slots<W: Wiring, C: Chooser>(wall: &mut Wall<W, C>, times: u8) {
    for _ in 0..times {
        let _ = wall.slot();
    }
}

fn leads<W: Wiring, C: Chooser>(
    wall: &Wall<W, C>,
    node: u8,
    destination: u8,
    first: u8,
    second: u8,
    hops: u8,
) -> bool {
    let ports = PortSet::empty().with(first).with(second);
    wall.entry(node, destination) == Ok(Some((ports, hops)))
}

fn step<W: Wiring, C: Chooser>(wall: &mut Wall<W, C>) -> Option<StepCounts> {
    let mut places = [NOTHING; 4];
    let mut tray = Tray::new(&mut places);
    wall.step(&mut tray).ok()
}

fn stepped(
    counts: Option<StepCounts>,
    moved: u16,
    delivered: u16,
    returned: u16,
    waited: u16,
) -> bool {
    counts
        == Some(StepCounts {
            moved,
            delivered,
            returned,
            waited,
        })
}

fn serves_root<W: Wiring, C: Chooser>(wall: &Wall<W, C>, node: u8, root: u8) -> bool {
    wall.mode(node) == Ok(Mode::Serving { root })
}

// The triangle's marks, once all serve root 0.
fn triangle<W: Wiring + Drop, C: Chooser + Drop>(mut wall: Wall<W, C>) -> bool {
    slots(&mut wall, 5);
    let Ok(first) = wall.marks(0) else {
        return false;
    };
    let Ok(second) = wall.marks(1) else {
        return false;
    };
    let Ok(third) = wall.marks(2) else {
        return false;
    };
    serves_root(&wall, 0, 0)
        & serves_root(&wall, 1, 0)
        & serves_root(&wall, 2, 0)
        & (first == [Mark::Unmarked, Mark::Down, Mark::Down, Mark::Unmarked])
        & (second == [Mark::Unmarked, Mark::Unmarked, Mark::Down, Mark::Up])
        & (third == [Mark::Up, Mark::Up, Mark::Unmarked, Mark::Unmarked])
}

// Two ways from corner to corner, one where a turn is barred, and the long way after a cut.
fn square<W: Wiring + Drop, C: Chooser + Drop>(mut wall: Wall<W, C>) -> bool {
    slots(&mut wall, 4);
    let before = serves_root(&wall, 0, 0)
        & leads(&wall, 0, 3, 1, 2, 2)
        & leads(&wall, 1, 2, 3, 3, 2);
    let cut = wall.cut(0, 1).is_ok();
    slots(&mut wall, 4);
    before & cut & leads(&wall, 0, 1, 2, 2, 3)
}

// The end of a cut cable whose slot comes first becomes root, and the other hand goes down.
fn second_root<W: Wiring + Drop, C: Chooser + Drop>(mut wall: Wall<W, C>) -> bool {
    slots(&mut wall, 5);
    let cut = wall.cut(0, 1).is_ok();
    let answer = wall.slot();
    let down = wall.is_hand_up(0) == Ok(false);
    cut & (answer.owner == 1) & (answer.act == Act::Root) & down
}

fn one_node<W: Wiring + Drop, C: Chooser + Drop>(mut wall: Wall<W, C>) -> bool {
    let answer = wall.slot();
    (answer.cycles == 0) & wall.calm()
}

// A hand that goes up during a recovery stays up at its end.
fn hand_in_a_recovery<W: Wiring + Drop, C: Chooser + Drop>(mut wall: Wall<W, C>) -> bool {
    let _ = wall.slot();
    let raised = wall.hand(1).is_ok();
    slots(&mut wall, 3);
    let early = wall.calm();
    let _ = wall.slot();
    raised & !early & wall.calm()
}

// Three posts from corner to corner: one place at a port, until all are there.
fn traffic<W: Wiring + Drop, C: Chooser + Drop>(mut wall: Wall<W, C>) -> bool {
    slots(&mut wall, 4);
    let calm = wall.calm();
    let posted = wall.post(0, 3, 7).is_ok()
        & wall.post(0, 3, 8).is_ok()
        & wall.post(0, 3, 9).is_ok();
    let first = step(&mut wall);
    let second = step(&mut wall);
    let third = step(&mut wall);
    let fourth = step(&mut wall);
    calm & posted
        & stepped(first, 2, 0, 0, 1)
        & stepped(second, 3, 0, 0, 0)
        & stepped(third, 1, 2, 0, 0)
        & stepped(fourth, 0, 1, 0, 0)
}

// A packet whose only cable is cut waits, and is returned when its node serves again.
fn returned<W: Wiring + Drop, C: Chooser + Drop>(mut wall: Wall<W, C>) -> bool {
    slots(&mut wall, 2);
    let posted = wall.post(0, 1, 5).is_ok() & wall.cut(0, 1).is_ok();
    let waits = step(&mut wall);
    slots(&mut wall, 3);
    let back = step(&mut wall);
    posted & stepped(waits, 0, 0, 0, 1) & stepped(back, 0, 0, 1, 0) & (wall.in_flight() == 0)
}

// The walls on a square, over one wiring of it.
fn square_walls<W: Wiring + Copy>(wiring: W) -> bool {
    square(Wall::power_up(wiring, LowestPort::new()))
        & square(Wall::power_up(wiring, RoundRobin::new()))
        & second_root(Wall::power_up(wiring, LowestPort::new()))
        & second_root(Wall::power_up(wiring, RoundRobin::new()))
        & traffic(Wall::power_up(wiring, LowestPort::new()))
}

// The walls on two nodes with one cable, over one wiring of them.
fn pair_walls<W: Wiring + Copy>(wiring: W) -> bool {
    hand_in_a_recovery(Wall::power_up(wiring, LowestPort::new()))
        & hand_in_a_recovery(Wall::power_up(wiring, RoundRobin::new()))
        & returned(Wall::power_up(wiring, LowestPort::new()))
        & returned(Wall::power_up(wiring, RoundRobin::new()))
}

fn lone_walls<W: Wiring + Copy>(wiring: W) -> bool {
    one_node(Wall::power_up(wiring, LowestPort::new()))
        & one_node(Wall::power_up(wiring, RoundRobin::new()))
}

#[test]
fn triangle_of_cables(rt: HostRuntime) -> Result<(), Fail> {
    assert!(rt; triangle(Wall::power_up(cables(&TRIANGLE)?, LowestPort::new())));
    assert!(rt; triangle(Wall::power_up(cables(&TRIANGLE)?, RoundRobin::new())));
    Ok(())
}

#[test]
fn squares(rt: HostRuntime) -> Result<(), Fail> {
    assert!(rt; square_walls(mesh(2, 2)?));
    assert!(rt; square_walls(cables(&SQUARE)?));
    Ok(())
}

#[test]
fn pairs_and_single_nodes(rt: HostRuntime) -> Result<(), Fail> {
    assert!(rt; pair_walls(mesh(2, 1)?));
    assert!(rt; pair_walls(cables(&PAIR)?));
    assert!(rt; lone_walls(mesh(1, 1)?));
    assert!(rt; lone_walls(cables(&LONE)?));
    Ok(())
}

#[test]
fn marks_and_entries(rt: HostRuntime) -> Result<(), Fail> {
    assert!(rt; triangle(Wall::power_up(cables(&TRIANGLE)?, LowestPort::new())));
    assert!(rt; triangle(Wall::power_up(cables(&TRIANGLE)?, RoundRobin::new())));
    assert!(rt; square(Wall::power_up(mesh(2, 2)?, LowestPort::new())));
    assert!(rt; square(Wall::power_up(cables(&SQUARE)?, RoundRobin::new())));
    Ok(())
}

#[test]
fn roots_and_hands(rt: HostRuntime) -> Result<(), Fail> {
    assert!(rt; second_root(Wall::power_up(mesh(2, 2)?, LowestPort::new())));
    assert!(rt; second_root(Wall::power_up(cables(&SQUARE)?, RoundRobin::new())));
    assert!(rt; one_node(Wall::power_up(mesh(1, 1)?, LowestPort::new())));
    assert!(rt; one_node(Wall::power_up(cables(&LONE)?, RoundRobin::new())));
    assert!(rt; hand_in_a_recovery(Wall::power_up(mesh(2, 1)?, LowestPort::new())));
    assert!(rt; hand_in_a_recovery(Wall::power_up(cables(&PAIR)?, RoundRobin::new())));
    Ok(())
}

#[test]
fn packets(rt: HostRuntime) -> Result<(), Fail> {
    assert!(rt; traffic(Wall::power_up(mesh(2, 2)?, LowestPort::new())));
    assert!(rt; traffic(Wall::power_up(cables(&SQUARE)?, LowestPort::new())));
    assert!(rt; returned(Wall::power_up(mesh(2, 1)?, RoundRobin::new())));
    assert!(rt; returned(Wall::power_up(cables(&PAIR)?, LowestPort::new())));
    Ok(())
}
