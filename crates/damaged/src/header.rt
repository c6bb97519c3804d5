//! Damage to the header of a file, and where its parts stand.
use crate::bytes::FileBytes;
use crate::draw::{draw_byte, push_random};
use sample::{Plan, Random};

/// The length of a header.
pub const HEADER: usize = 7;

/// The place of the node count.
pub const NODE_COUNT: usize = 5;

/// The place of the cable count.
pub const CABLE_COUNT: usize = 6;

/// Writes a random byte over one of the header.
pub(crate) fn change_byte(file: &mut FileBytes, random: &mut Random) {
    let at = random.under(HEADER);
    file.set(at, draw_byte(random));
}

/// Flips one bit of the header.
pub(crate) fn flip_bit(file: &mut FileBytes, random: &mut Random) {
    let at = random.under(HEADER);
    let bit = random.below(8);
    file.flip(at, bit);
}

/// Writes a random byte over one of the counts.
pub(crate) fn change_count(file: &mut FileBytes, random: &mut Random) {
    let at = NODE_COUNT + random.under(2usize);
    file.set(at, draw_byte(random));
}

/// Writes the node count of another random file.
pub(crate) fn take_other_node_count(file: &mut FileBytes, random: &mut Random) {
    let other = Plan::any(random);
    file.set(NODE_COUNT, other.nodes);
}

/// Keeps the mark and the version, and puts random bytes, 0 to 595, in the place of all others.
pub(crate) fn randomize_behind_version(file: &mut FileBytes, random: &mut Random) {
    let bytes = random.under(596usize);
    file.cut(NODE_COUNT);
    push_random(file, random, bytes);
}
