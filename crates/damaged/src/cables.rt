//! Damage to the cables of a file.
ghost use Rattle.std.specs.Prelude.{◌≡◌, ◌+◌, ◌*◌, ◌≤◌, slice_index, slice_set};

use crate::bytes::FileBytes;
use crate::draw::{draw_byte, push_random};
use crate::header::{CABLE_COUNT, HEADER, NODE_COUNT};
use sample::Random;

// The place of a cable's first byte.
fn place(index: u8) -> usize
    ensures { result ≡ 7 + 4 * index }
{
    HEADER + 4 * usize::from(index)
}

// The four bytes of a cable; 0 behind the file's end.
fn cable_at(file: &FileBytes, index: u8) -> [u8; 4]
    ensures first { 7 + 4 * index + 1 ≤ file.now.used → slice_index result 0 ≡ slice_index file.now.bytes (7 + 4 * index) }
    ensures last { 7 + 4 * index + 4 ≤ file.now.used → slice_index result 3 ≡ slice_index file.now.bytes (7 + 4 * index + 3) }
{
    let at = place(index);
    [
        file.get(at),
        file.get(at + 1),
        file.get(at + 2),
        file.get(at + 3),
    ]
}

// Writes over the four bytes of a cable. Behind the file's end nothing is written.
fn put_cable(file: &mut FileBytes, index: u8, cable: [u8; 4])
    ensures { 7 + 4 * index + 4 ≤ file.old.used → file.new.bytes ≡ slice_set (slice_set (slice_set (slice_set file.old.bytes (7 + 4 * index) (slice_index cable 0)) (7 + 4 * index + 1) (slice_index cable 1)) (7 + 4 * index + 2) (slice_index cable 2)) (7 + 4 * index + 3) (slice_index cable 3) }
{
    let at = place(index);
    file.set(at, cable[0]);
    file.set(at + 1, cable[1]);
    file.set(at + 2, cable[2]);
    file.set(at + 3, cable[3]);
}

// The index of a random cable; 0 where there is none.
fn draw_cable(file: &FileBytes, random: &mut Random) -> u8 {
    random.below(file.get(CABLE_COUNT))
}

/// Has two random cables change places. They may be the same.
pub(crate) fn swap_two(file: &mut FileBytes, random: &mut Random) {
    let a = draw_cable(file, random);
    let b = draw_cable(file, random);
    let first = cable_at(file, a);
    let second = cable_at(file, b);
    put_cable(file, a, second);
    put_cable(file, b, first);
}

/// Has the ends of every cable change places.
pub(crate) fn turn_all(file: &mut FileBytes, _random: &mut Random) {
    for index in 0..file.get(CABLE_COUNT) {
        let mut cable = cable_at(file, index);
        cable.rotate_left(2);
        put_cable(file, index, cable);
    }
}

/// Writes a random cable over a random cable. They may be the same.
pub(crate) fn double_over(file: &mut FileBytes, random: &mut Random) {
    let from = draw_cable(file, random);
    let to = draw_cable(file, random);
    let cable = cable_at(file, from);
    put_cable(file, to, cable);
}

/// Writes a random cable once more behind the others, and has the header count it.
pub(crate) fn double_behind(file: &mut FileBytes, random: &mut Random) {
    let from = draw_cable(file, random);
    let count = file.get(CABLE_COUNT);
    file.set(CABLE_COUNT, count.wrapping_add(1));
    let cable = cable_at(file, from);
    file.push_all(&cable);
}

/// Has a random cable's second end on the node of its first.
pub(crate) fn join_to_itself(file: &mut FileBytes, random: &mut Random) {
    let at = draw_cable(file, random);
    let mut cable = cable_at(file, at);
    cable[2] = cable[0];
    put_cable(file, at, cable);
}

/// Writes a port above 3 at a random end of a random cable.
pub(crate) fn change_port(file: &mut FileBytes, random: &mut Random) {
    let at = draw_cable(file, random);
    let end = 1 + 2 * usize::from(random.below(2));
    let port = 4 + random.below(252);
    let mut cable = cable_at(file, at);
    cable[end] = port;
    put_cable(file, at, cable);
}

// Ends the file behind its header, which is to count so many cables.
fn begin_cables(file: &mut FileBytes, count: u8) {
    file.cut(HEADER);
    file.set(CABLE_COUNT, count);
}

/// Puts random bytes in the place of the cables, 0 to 128 of them.
pub(crate) fn randomize(file: &mut FileBytes, random: &mut Random) {
    let count = random.below(129);
    begin_cables(file, count);
    push_random(file, random, 4 * usize::from(count));
}

// A random byte below `n`; one time in 32 any byte.
fn draw_mostly_below(random: &mut Random, n: u8) -> u8 {
    if random.below(32) == 0 {
        draw_byte(random)
    } else {
        random.below(n)
    }
}

/// Puts up to eight random cables in the place of the cables, with bytes that are mostly in range.
pub(crate) fn randomize_in_range(file: &mut FileBytes, random: &mut Random) {
    let count = random.below(9);
    let nodes = file.get(NODE_COUNT);
    begin_cables(file, count);
    for _ in 0..2 * count {
        file.push(draw_mostly_below(random, nodes));
        file.push(draw_mostly_below(random, 4));
    }
}
