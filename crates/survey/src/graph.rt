//! What the survey finds out for itself, from the cables that it has not cut: the shortest ways, and
//! circles over permitted turns.
use crate::field::{Port, Ports};
use rules::Mark;

/// For each node the number of cables on a shortest way to it, if there is one.
pub type Distances = [Option<u8>; 64];

// The distance of a node.
fn distance_of(distances: &Distances, node: u8) -> Option<u8> {
    distances.get(usize::from(node)).copied().flatten()
}

// Notes the distance of a node that has none yet. Whether it had none.
fn reach(distances: &mut Distances, node: u8, distance: u8) -> bool {
    match distances.get_mut(usize::from(node)) {
        Some(place) if place.is_none() => {
            *place = Some(distance);
            true
        }
        _ => false,
    }
}

// The nodes next to one. Whether a new one was met.
fn spread_from(ports: &[Port; 4], distances: &mut Distances, distance: u8) -> bool {
    let mut any = false;
    for port in ports {
        if let Some((node, _)) = port.far {
            any |= reach(distances, node, distance.saturating_add(1));
        }
    }
    any
}

// One level more: the nodes next to those of this distance. Whether a new one was met.
fn spread(ports: &Ports, distances: &mut Distances, distance: u8) -> bool {
    let mut any = false;
    for (node, ports) in (0..64u8).zip(ports) {
        if distance_of(distances, node) == Some(distance) {
            any |= spread_from(ports, distances, distance);
        }
    }
    any
}

/// The number of live cables from a node to each other one.
pub(crate) fn distances(ports: &Ports, from: u8) -> Distances {
    let mut distances = [None; 64];
    let _ = reach(&mut distances, from, 0);
    // Level after level, until no new node is met.
    for distance in 0..64u8 {
        if !spread(ports, &mut distances, distance) {
            break;
        }
    }
    distances
}

// Whether a packet that came in at a port may leave by another: both are marked, not both up.
fn is_permitted(came: Mark, goes: Mark) -> bool {
    came.is_marked() & goes.is_marked() & !(came.is_up() & goes.is_up())
}

/// For each port whether the crossing out of it is still on.
type Crossings = [[bool; 4]; 64];

// Whether a crossing out of this port has a crossing after it that is still on.
fn goes_on(ports: &Ports, on: &Crossings, port: &Port) -> bool {
    let Some((node, at)) = port.far else {
        return false;
    };
    let (Some(ports), Some(on)) = (ports.get(usize::from(node)), on.get(usize::from(node))) else {
        return false;
    };
    let Some(came) = ports.get(usize::from(at)) else {
        return false;
    };
    ports
        .iter()
        .zip(on)
        .any(|(goes, on)| *on && is_permitted(came.mark, goes.mark))
}

// Takes off the crossings that none follows. Whether there was one.
fn peel(ports: &Ports, on: &mut Crossings) -> bool {
    let mut any = false;
    // By place: all crossings are read while one is taken off.
    for (node, of_node) in ports.iter().enumerate() {
        for (at, port) in of_node.iter().enumerate() {
            if on[node][at] && !goes_on(ports, on, port) {
                on[node][at] = false;
                any = true;
            }
        }
    }
    any
}

/// Whether there is a circle: crossings over live cables, each turn into the next and from the last
/// into the first permitted. Crossings that no other can follow are taken off, again and again; what
/// then stays goes on for ever, so it has a circle.
pub(crate) fn has_circle(ports: &Ports) -> bool {
    let mut on = ports.map(|ports| ports.map(|port| port.far.is_some()));
    for _ in 0..257u16 {
        if !peel(ports, &mut on) {
            break;
        }
    }
    on.iter().any(|on| on.contains(&true))
}
