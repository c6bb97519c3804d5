//! Broken cables and broken nodes.
use crate::field::Field;
use crate::graph::has_circle;
use crate::sums::{Sums, percent, ratio};
use crate::walls::Walls;
use sample::Random;
use std::io;

/// Prints that a circle is found where every turn is permitted, and none in the same
/// wall once it has marks.
pub(crate) fn print_control(
    rt: &HostRuntime,
    walls: &Walls,
    random: &mut Random,
) -> io::Result<()> {
    let mut field = Field::power_up(&walls.next(random));
    field.mark_all_down();
    let all = has_circle(&field.ports);
    let _ = field.settle();
    field.note_all_marks();
    let marked = has_circle(&field.ports);
    let name = walls.name();
    println!(rt; "circles, {name}: {all} where every turn is permitted, {marked} with its marks")
}

// So many random cuts, in so many patterns.
fn cables(walls: &Walls, random: &mut Random, cuts: u8, patterns: u32) -> Sums {
    let mut sums = Sums::default();
    for _ in 0..patterns {
        let mut field = Field::power_up(&walls.next(random));
        let mut effort = field.settle();
        if cuts > 0 {
            field.idle(random.below(64));
            field.cut_random(random, cuts);
            effort = field.settle();
        }
        sums.add(&mut field, &[], effort);
    }
    sums
}

fn print_row(rt: &HostRuntime, cuts: u8, s: &Sums) -> io::Result<()> {
    let joined = percent(s.joined, s.pairs);
    let entered = percent(s.entered, s.pairs);
    let unequal = s.unequal;
    let circles = s.circles;
    let count = ratio(s.counts, s.entered);
    let way = ratio(s.ways, s.joined);
    let slots = ratio(s.slots, s.patterns);
    let cycles = ratio(s.cycles, s.patterns);
    let most = s.most_cycles;
    println!(rt;
        "{cuts} | {joined} | {entered} | {unequal} | {circles} | {count} | {way} | {slots} | {cycles} | {most}"
    )
}

/// Prints the table of random cuts.
// Runtime, walls and numbers are each handed on as they are; a struct would only be taken apart.
pub(crate) fn print_cables(
    rt: &HostRuntime,
    walls: &Walls,
    random: &mut Random,
    patterns: u32,
) -> io::Result<()> {
    let name = walls.name();
    println!(rt; "random cuts, {name}, {patterns} patterns for each number of cuts")?;
    println!(rt;
        "cuts | joined % | with entry % | unequal | circles | mean count | mean way | slots | cycles | most cycles"
    )?;
    for cuts in (0..=100u8).step_by(10) {
        let sums = cables(walls, random, cuts, patterns);
        print_row(rt, cuts, &sums)?;
    }
    Ok(())
}

// One pattern of broken nodes.
fn break_nodes(walls: &Walls, random: &mut Random, gone: &[u8], sums: &mut Sums) {
    let mut field = Field::power_up(&walls.next(random));
    let _ = field.settle();
    field.idle(random.below(64));
    for node in gone {
        field.cut_node(*node);
    }
    let effort = field.settle();
    sums.add(&mut field, gone, effort);
}

// Every node. Nodes and pairs stand in slices of other lengths, so that one loop for both would not be plainer.
fn one_node(walls: &Walls, random: &mut Random) -> Sums {
    let mut sums = Sums::default();
    for node in 0..64u8 {
        break_nodes(walls, random, &[node], &mut sums);
    }
    sums
}

// Every pair of nodes whose place in their order is a multiple of the stride.
// A count: a step over pairs made by flat_map is no plainer.
fn two_nodes(walls: &Walls, random: &mut Random, stride: u32) -> Sums {
    let mut sums = Sums::default();
    let mut left = 0u32;
    for first in 0..64u8 {
        for second in first + 1..64 {
            if left == 0 {
                break_nodes(walls, random, &[first, second], &mut sums);
                left = stride;
            }
            left = left.saturating_sub(1);
        }
    }
    sums
}

// The number drawn among the nodes without this one, as a node.
fn past(drawn: u8, gone: u8) -> u8 {
    if drawn < gone {
        drawn
    } else {
        drawn.saturating_add(1)
    }
}

// So many random triples. Each is drawn only when the one before is broken: so the loop is its own.
fn three_nodes(walls: &Walls, random: &mut Random, patterns: u32) -> Sums {
    let mut sums = Sums::default();
    for _ in 0..patterns {
        let first = random.below(64);
        let second = past(random.below(63), first);
        let low = first.min(second);
        let high = first.max(second);
        let third = past(past(random.below(62), low), high);
        break_nodes(walls, random, &[low, high, third], &mut sums);
    }
    sums
}

fn print_nodes_row(rt: &HostRuntime, nodes: u8, s: &Sums) -> io::Result<()> {
    let patterns = s.patterns;
    let whole = percent(s.whole, s.patterns);
    let joined = percent(s.joined, s.pairs);
    let entered = percent(s.entered, s.pairs);
    let unequal = s.unequal;
    let circles = s.circles;
    let cycles = ratio(s.cycles, s.patterns);
    println!(rt;
        "{nodes} | {patterns} | {whole} | {joined} | {entered} | {unequal} | {circles} | {cycles}"
    )
}

/// Prints the table of broken nodes: every one, every pair (or one in so many), and random triples.
// Runtime, walls and numbers are each handed on as they are; a struct would only be taken apart.
pub(crate) fn print_nodes(
    rt: &HostRuntime,
    walls: &Walls,
    random: &mut Random,
    patterns: u32,
) -> io::Result<()> {
    let name = walls.name();
    println!(rt; "broken nodes, {name}; pairs of the other nodes")?;
    println!(rt;
        "nodes | patterns | whole % | joined % | with entry % | unequal | circles | cycles"
    )?;
    print_nodes_row(rt, 1, &one_node(walls, random))?;
    let stride = 1000u32.checked_div(patterns).unwrap_or(1000);
    print_nodes_row(rt, 2, &two_nodes(walls, random, stride.max(1)))?;
    print_nodes_row(rt, 3, &three_nodes(walls, random, patterns))
}
