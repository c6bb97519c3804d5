use super::*;

/// Lays a cable between two ports.
fn join(ends: &mut [Option<(u8, u8)>; 256], (a, p): (u8, u8), (b, q): (u8, u8)) {
    if a < 64 && p < 4 && b < 64 && q < 4 {
        ends[(4 * a + p) as usize] = Some((b, q));
        ends[(4 * b + q) as usize] = Some((a, p));
    }
}

/// Runs that many slots.
fn run(net: &mut Net, slots: u8) {
    for _ in 0..slots {
        net.run_slot();
    }
}

/// The ports that are given, and the cycle.
fn entry(north: bool, east: bool, south: bool, west: bool, cycle: u8) -> Option<Entry> {
    Some(Entry {
        ports: [north, east, south, west],
        cycle,
    })
}

/// Nodes 0 and 1 above 2 and 3. The root 0 reaches 3 over 1 and over 2 in cycle 2. When 1 broadcasts, 3 has the flag
/// from above and may not send it up to 2, so 2 gets it over the root alone.
#[test]
fn square(rt: HostRuntime) {
    let mut ends = [None; 256];
    join(&mut ends, (0, 1), (1, 3));
    join(&mut ends, (0, 2), (2, 0));
    join(&mut ends, (1, 2), (3, 0));
    join(&mut ends, (2, 1), (3, 3));
    let mut net = Net::new(4, &ends);
    run(&mut net, 5);
    assert!(rt; net.settled() && net.cycle() == 20);
    assert_eq!(rt; net.root(3), Some(0));
    assert_eq!(rt; net.direction(1, 2), Direction::Down);
    assert_eq!(rt; net.direction(3, 0), Direction::Up);
    assert_eq!(rt; net.entry(3, 0), entry(true, false, false, true, 2));
    assert_eq!(rt; net.entry(2, 1), entry(true, false, false, false, 2));
    assert_eq!(rt; net.entry(0, 3), entry(false, true, true, false, 2));
    assert_eq!(rt; net.entry(3, 3), None);
}

/// A ring of five, where port 1 leads to the next node and port 3 to the one before. Nodes 2 and 3 are both two hops from
/// the root 0 and send each other its flag in cycle 3: 3 marks the link up, 2 marks it down. So the flag of 1 goes from 2
/// to 3, and that of 4 does not go from 3 to 2, but all the way round.
#[test]
fn ring(rt: HostRuntime) {
    let mut ends = [None; 256];
    for n in 0..5u8 {
        join(&mut ends, (n, 1), ((n + 1) % 5, 3));
    }
    let mut net = Net::new(5, &ends);
    run(&mut net, 5);
    assert!(rt; !net.settled() && net.mode(0) == Mode::Normal && net.mode(2) == Mode::Recovering);
    run(&mut net, 1);
    assert!(rt; net.settled());
    assert_eq!(rt; net.direction(3, 3), Direction::Up);
    assert_eq!(rt; net.direction(2, 1), Direction::Down);
    assert_eq!(rt; net.entry(3, 1), entry(false, false, false, true, 2));
    assert_eq!(rt; net.entry(4, 1), entry(false, true, false, false, 2));
    assert_eq!(rt; net.entry(2, 4), entry(false, false, false, true, 3));
}

/// A chain of three breaks between 1 and 2 when the next slot is that of 1. Node 1 becomes the root of 0 and itself, and 2,
/// which its flag does not reach, the root of itself.
#[test]
fn split(rt: HostRuntime) {
    let mut ends = [None; 256];
    join(&mut ends, (0, 1), (1, 3));
    join(&mut ends, (1, 1), (2, 3));
    let mut net = Net::new(3, &ends);
    run(&mut net, 4);
    assert_eq!(rt; net.entry(2, 0), entry(false, false, false, true, 2));
    net.fail(2, 3);
    run(&mut net, 3);
    assert!(rt;
        net.cycle() == 21 && net.mode(1) == Mode::Normal && net.mode(0) == Mode::Recovering
    );
    run(&mut net, 1);
    assert!(rt; net.settled());
    assert!(rt; net.root(0) == Some(1) && net.root(1) == Some(1) && net.root(2) == Some(2));
    assert_eq!(rt; net.direction(0, 1), Direction::Up);
    assert_eq!(rt; net.entry(0, 1), entry(false, true, false, false, 1));
    assert!(rt; net.entry(0, 2).is_none() && net.entry(2, 0).is_none());
}
