//! One wall: its power-up and several recoveries in a row.
use crate::cuts::Cuts;
use crate::pair::Pair;
use crate::tally::{Difference, Found, Tally};
use sample::{Random, WallFile};
use wiring::Wiring;

/// How many recoveries follow the power-up, as long as there are cables.
const ROUNDS: u8 = 8;

// Mostly one to three cables, now and then many.
fn how_many(random: &mut Random) -> u8 {
    if random.below(8) == 0 {
        1 + random.below(32)
    } else {
        1 + random.below(3)
    }
}

// Cuts some cables, a few slots after the wall became calm, so that any node can be the first whose
// slot comes. Whether any was cut.
// Pair and cuts are of one wall, numbers and tally of all: so four parameters.
fn cut_some<W: Wiring>(
    pair: &mut Pair<W>,
    random: &mut Random,
    cuts: &mut Cuts,
    tally: &mut Tally,
) -> bool {
    let mut any = false;
    pair.idle(random.below(64));
    for _ in 0..how_many(random) {
        if let Some(cut) = pair.cut(random) {
            cuts.note(cut);
            tally.cuts += 1;
            any = true;
        }
    }
    any
}

// The power-up and the recoveries, up to the first difference.
fn run<W: Wiring>(
    pair: &mut Pair<W>,
    random: &mut Random,
    cuts: &mut Cuts,
    tally: &mut Tally,
) -> Result<(), Difference> {
    pair.settle_and_compare(tally)?;
    for _ in 0..ROUNDS {
        if cut_some(pair, random, cuts, tally) {
            tally.recoveries += 1;
            pair.settle_and_compare(tally)?;
        }
    }
    Ok(())
}

/// Compares the two simulators on a wall. The first difference of all is kept with its wall file and
/// its cuts.
pub(crate) fn trial<W: Wiring + Drop>(wiring: W, random: &mut Random, tally: &mut Tally) {
    let file = WallFile::of(&wiring);
    let mut cuts = Cuts::new();
    let mut pair = Pair::power_up(wiring);
    tally.walls += 1;
    if let Err(difference) = run(&mut pair, random, &mut cuts, tally) {
        if tally.found.is_none() {
            tally.found = Some(Found {
                difference,
                file,
                cuts,
            });
        }
    }
}
