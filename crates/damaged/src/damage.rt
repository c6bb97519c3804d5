//! Damaged files: a random good file, and one of twenty kinds of damage to it, in turn.
use crate::bytes::FileBytes;
use crate::{cables, header, whole};
use sample::{Plan, Random};

// A random good file.
fn good_file(random: &mut Random) -> FileBytes {
    let plan = Plan::any(random);
    let good = plan.make(random);
    let mut file = FileBytes::new();
    file.push_all(good.as_slice());
    file
}

// A kind of damage.
// In a struct, whose ghost field says that each may be called; of an array of functions nothing would be known.
#[derive(Clone, Copy)]
struct Kind {
    run: fn(&mut FileBytes, &mut Random),
    ghost callable: { IsAlwaysCallable run },
}

/// The damaged file of this number, counted from 0. Every twenty files have each kind of damage.
pub(crate) fn damaged_file(number: u32, random: &mut Random) -> FileBytes {
    let kinds = [
        Kind {
            run: whole::cut_anywhere,
        },
        Kind {
            run: header::change_byte,
        },
        Kind {
            run: cables::swap_two,
        },
        Kind {
            run: whole::flip_bit,
        },
        Kind {
            run: whole::cut_in_header,
        },
        Kind {
            run: header::flip_bit,
        },
        Kind {
            run: cables::turn_all,
        },
        Kind {
            run: whole::change_bytes,
        },
        Kind {
            run: whole::cut_between_cables,
        },
        Kind {
            run: header::change_count,
        },
        Kind {
            run: cables::double_over,
        },
        Kind {
            run: cables::change_port,
        },
        Kind {
            run: whole::lengthen,
        },
        Kind {
            run: header::take_other_node_count,
        },
        Kind {
            run: cables::double_behind,
        },
        Kind {
            run: cables::randomize,
        },
        Kind {
            run: whole::randomize,
        },
        Kind {
            run: header::randomize_behind_version,
        },
        Kind {
            run: cables::join_to_itself,
        },
        Kind {
            run: cables::randomize_in_range,
        },
    ];
    let mut file = good_file(random);
    (kinds[number as usize % 20].run)(&mut file, random);
    file
}
