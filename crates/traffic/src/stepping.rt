//! A step: the packets in flight are taken once each, by rising number.
ghost use Rattle.std.specs.Prelude.{◌≡◌, ◌+◌, ◌<◌, ◌≤◌, [], ◌∷◌, ◌++◌, length, MatchResult};
ghost use Rattle.rules.specs.declared.Packet.{Packet};
ghost use Rattle.tray.specs.Filled.{rest, Puts};
ghost use Rattle.traffic.specs.Inside.{Inside};
ghost use Rattle.traffic.specs.Stepping.{StepDone, StepRefused};
ghost use Rattle.traffic.specs.Sweeping.{staying, BehindStays, ReadyFor, Applies, OccupancyFollows, Onward};

use crate::types::{Fate, Flight, Occupancy, Scene, Sweep};
use board::Board;
use chooser::Chooser;
use rules::{Ending, Outcome, Packet, Refusal, StepCounts};
use tray::Tray;
use wiring::Wiring;

impl Flight {
    /// Takes the packets once each, by rising number. At a recovering node a packet waits; at a
    /// serving one it is delivered at its destination, returned without an entry, and otherwise
    /// crosses by one of the ports offered to it, which the chooser picks, or waits if there is
    /// none. Those that leave the wall go into the tray. A tray with fewer free places than there
    /// are packets in flight is refused before the chooser is asked.
    pub fn step<W: Wiring, C: Chooser>(
        &mut self,
        board: &Board,
        wiring: &W,
        chooser: &mut C,
        tray: &mut Tray<Outcome>,
    ) -> Result<StepCounts, Refusal>
        ensures { MatchResult result (λ counts. StepDone C.Chooser.picks (W.Wiring.layout wiring.now) board.now counts self.old tray.old chooser.old self.new tray.new chooser.new) (λ reason. StepRefused reason self.old tray.old chooser.old self.new tray.new chooser.new) }
    {
        if tray.free() < self.count {
            return Err(Refusal::TrayTooSmall);
        }
        let mut sweep = Sweep {
            occupancy: Occupancy::of(self),
            stayed: 0,
            counts: StepCounts::default(),
        };
        // By index, since the packets that stay are written over those taken.
        for i in 0..self.count {
            let x = self.places[i];
            // So the occupancy counts the others.
            sweep.occupancy.depart(x);
            let scene = Scene {
                board,
                wiring,
                occupancy: &sweep.occupancy,
            };
            let fate = scene.decide(chooser, x);
            self.apply(&mut sweep, tray, fate, x);
        }
        self.count = sweep.stayed;
        Ok(sweep.counts)
    }

    // Puts a packet's fate into effect: it stays, in flight or with another place, or it leaves.
    #[tactic(auto, using(crate::proofs::Applying::waits_applied, crate::proofs::Applying::crosses_applied, crate::proofs::Applying::delivered_applied, crate::proofs::Applying::returned_applied, crate::proofs::Applying::occupancy_kept, crate::proofs::Applying::behind_none, crate::proofs::Applying::occupancy_same))]
    fn apply(&mut self, sweep: &mut Sweep, tray: &mut Tray<Outcome>, fate: Fate, x: Packet)
        requires { ReadyFor fate x sweep.old tray.old }
        ensures applies { Applies fate x self.old sweep.old tray.old self.new sweep.new tray.new }
        ensures behind { BehindStays sweep.old.stayed self.old self.new }
        ensures occupied { OccupancyFollows self.old sweep.old self.new sweep.new }
        ensures onward { Onward sweep.old tray.old sweep.new tray.new }
    {
        match fate {
            Fate::Waits => {
                sweep.counts.waited += 1;
                self.keep(sweep, x);
                sweep.occupancy.arrive(x);
            }
            Fate::Delivered => {
                sweep.counts.delivered += 1;
                put_outcome(tray, x, Ending::Delivered);
            }
            Fate::Returned => {
                sweep.counts.returned += 1;
                put_outcome(tray, x, Ending::Returned);
            }
            Fate::Crosses { node, port } => {
                sweep.counts.moved += 1;
                let moved = Packet {
                    node,
                    standing: Some(port),
                    ..x
                };
                self.keep(sweep, moved);
                sweep.occupancy.arrive(moved);
            }
        }
    }

    // The packet stays in flight: it takes the next of the first places.
    #[tactic(auto, using(crate::proofs::Standing::inside_set))]
    fn keep(&mut self, sweep: &mut Sweep, x: Packet)
        requires { (sweep.old.stayed < 256) × (Inside x) }
        ensures staying { staying self.new sweep.new ≡ staying self.old sweep.old ++ x ∷ [] }
        ensures behind { BehindStays sweep.old.stayed self.old self.new }
        ensures occupied { sweep.new.occupancy ≡ sweep.old.occupancy }
        ensures stayed { sweep.new.stayed ≡ sweep.old.stayed + 1 }
        ensures counts { sweep.new.counts ≡ sweep.old.counts }
    {
        self.places[sweep.stayed] = x;
        sweep.stayed += 1;
    }
}

// Puts the packet's outcome into the tray.
fn put_outcome(tray: &mut Tray<Outcome>, x: Packet, ending: Ending)
    requires { 1 ≤ length (rest tray.old) }
    ensures { Puts (record { number = x.number; ending = ending; node = x.node; word = x.word } ∷ []) tray.old tray.new }
{
    // There is a free place for it.
    let _ = tray.put(Outcome {
        number: x.number,
        ending,
        node: x.node,
        word: x.word,
    });
}
