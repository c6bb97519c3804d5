//! Damage to a file as a whole: it is cut off or lengthened, or bytes anywhere are changed.
use crate::bytes::FileBytes;
use crate::draw::{draw_byte, push_random};
use crate::header::{CABLE_COUNT, HEADER};
use sample::Random;

/// Cuts the file off at any place, its end included.
pub(crate) fn cut_anywhere(file: &mut FileBytes, random: &mut Random) {
    let most = random.under(file.len() + 1);
    file.cut(most);
}

/// Cuts the file off in its header or right behind it.
pub(crate) fn cut_in_header(file: &mut FileBytes, random: &mut Random) {
    let most = random.under(HEADER + 1);
    file.cut(most);
}

/// Cuts the file off behind one of its cables, and has the header count those that are left.
pub(crate) fn cut_between_cables(file: &mut FileBytes, random: &mut Random) {
    let count = file.get(CABLE_COUNT);
    let left = random.below(count);
    file.set(CABLE_COUNT, left);
    file.cut(HEADER + 4 * usize::from(left));
}

/// Writes one to eight random bytes behind the file's end.
pub(crate) fn lengthen(file: &mut FileBytes, random: &mut Random) {
    let more = 1 + usize::from(random.below(8));
    push_random(file, random, more);
}

/// Puts random bytes in the file's place, 0 to 600.
pub(crate) fn randomize(file: &mut FileBytes, random: &mut Random) {
    let bytes = random.under(601usize);
    file.cut(0);
    push_random(file, random, bytes);
}

/// Flips one bit of any byte.
pub(crate) fn flip_bit(file: &mut FileBytes, random: &mut Random) {
    let at = random.under(file.len());
    let bit = random.below(8);
    file.flip(at, bit);
}

/// Writes random bytes over two to five bytes.
pub(crate) fn change_bytes(file: &mut FileBytes, random: &mut Random) {
    let times = 2 + random.below(4);
    for _ in 0..times {
        let at = random.under(file.len());
        file.set(at, draw_byte(random));
    }
}
