//! Packets in flight while cables break.
use crate::field::Field;
use crate::sums::{percent, ratio};
use crate::walls::Walls;
use rules::{Ending, Outcome};
use sample::Random;
use std::io;
use std::num::Saturating;
use tray::Tray;

const NOTHING: Outcome = Outcome {
    number: 0,
    ending: Ending::Delivered,
    node: 0,
    word: 0,
};

/// How often packets are posted, cables are cut, and a step and a slot are run.
const ROUNDS: u8 = 20;

/// How many packets are posted to a calm wall before the first cut.
const FIRST_POSTS: u8 = 128;

/// How many packets are posted in a round; a node that recovers takes none.
const POSTS: u8 = 8;

/// More steps than any run takes once its wall is calm.
const MOST_STEPS: u16 = 2048;

/// What became of the packets of some runs.
#[derive(Clone, Copy, Default)]
struct Fates {
    runs: Saturating<u64>,
    posted: Saturating<u64>,
    delivered: Saturating<u64>,
    returned: Saturating<u64>,
    /// Delivered packets that were not at the destination that their word names.
    astray: Saturating<u64>,
    /// Packets still in flight at the end.
    left: Saturating<u64>,
    /// Runs in which delivered and returned packets do not add up to those posted.
    unequal: Saturating<u64>,
    /// Steps from the calm on until no packet was in flight.
    steps: Saturating<u64>,
}

impl Fates {
    fn outcome(&mut self, outcome: Outcome) {
        match outcome.ending {
            Ending::Delivered => {
                self.delivered += 1;
                if u32::from(outcome.node) != outcome.word {
                    self.astray += 1;
                }
            }
            Ending::Returned => self.returned += 1,
        }
    }

    fn step(&mut self, field: &mut Field) {
        let mut places = [NOTHING; 256];
        let mut tray = Tray::new(&mut places);
        let _ = field.wall.step(&mut tray);
        for outcome in tray.as_slice() {
            self.outcome(*outcome);
        }
    }

    // Posts packets between random nodes; each has its destination as its word.
    fn post(&mut self, field: &mut Field, random: &mut Random, times: u8) {
        for _ in 0..times {
            let source = random.below(64);
            let destination = random.below(64);
            if field
                .wall
                .post(source, destination, u32::from(destination))
                .is_ok()
            {
                self.posted += 1;
            }
        }
    }

    // Posts, cuts, steps and slots mixed.
    fn disturb(&mut self, field: &mut Field, random: &mut Random, cuts: u8) {
        let mut left = cuts;
        self.post(field, random, FIRST_POSTS);
        for _ in 0..ROUNDS {
            self.post(field, random, POSTS);
            let now = left.min(random.below(4));
            field.cut_random(random, now);
            left = left.saturating_sub(now);
            for _ in 0..random.below(16) {
                let _ = field.wall.slot();
                self.step(field);
            }
        }
        field.cut_random(random, left);
    }

    // Slots until the wall is calm, and steps until no packet is in flight.
    fn finish(&mut self, field: &mut Field) {
        let _ = field.settle();
        for _ in 0..MOST_STEPS {
            if field.wall.in_flight() == 0 {
                break;
            }
            self.step(field);
            self.steps += 1;
        }
        self.left += field.wall.in_flight() as u64;
    }

    // Packets that were posted, and neither delivered nor returned.
    fn unaccounted(&self) -> Saturating<u64> {
        self.posted - (self.delivered + self.returned)
    }

    fn run(&mut self, walls: &Walls, random: &mut Random, cuts: u8) {
        let before = self.unaccounted();
        let mut field = Field::power_up(&walls.next(random));
        let _ = field.settle();
        self.disturb(&mut field, random, cuts);
        self.finish(&mut field);
        self.runs += 1;
        if self.unaccounted() != before {
            self.unequal += 1;
        }
    }
}

fn print_row(rt: &HostRuntime, cuts: u8, fates: &Fates) -> io::Result<()> {
    let runs = fates.runs;
    let posted = fates.posted;
    let delivered = fates.delivered;
    let returned = fates.returned;
    let left = fates.left;
    let unequal = fates.unequal;
    let astray = fates.astray;
    let share = percent(delivered, posted);
    let steps = ratio(fates.steps, runs);
    println!(rt;
        "{cuts} | {runs} | {posted} | {delivered} | {returned} | {share} | {left} | {unequal} | {astray} | {steps}"
    )
}

/// Prints the table of packets in flight while cables break.
// Runtime, walls and numbers are each handed on as they are; a struct would only be taken apart.
pub(crate) fn print_packets(
    rt: &HostRuntime,
    walls: &Walls,
    random: &mut Random,
    runs: u32,
) -> io::Result<()> {
    let name = walls.name();
    println!(rt; "packets in flight while cables break, {name}")?;
    println!(rt;
        "cuts | runs | posted | delivered | returned | delivered % | left | unequal | astray | steps"
    )?;
    for cuts in [1u8, 10, 20, 40, 60] {
        let mut fates = Fates::default();
        for _ in 0..runs {
            fates.run(walls, random, cuts);
        }
        print_row(rt, cuts, &fates)?;
    }
    Ok(())
}
