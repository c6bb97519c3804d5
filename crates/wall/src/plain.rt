//! The calls on the plain part of a wall. Cut, hand, slot and post are given what they need of the
//! wiring: its node count, and the far ends of all ports.
ghost use Rattle.std.specs.Prelude.{◌≡◌};
ghost use Rattle.rules.specs.State.{power_up};
ghost use Rattle.rules.specs.Runs.{cut, hand, slot_call, post, slotted};
ghost use Rattle.rules.specs.Promise.{Promised};
ghost use Rattle.traffic.specs.Posting.{post_reply};
ghost use Rattle.wall.specs.Plain.{OfCount, OfEnds, Called};
ghost use Rattle.wall.specs.Steps.{StepCall};
ghost use Rattle.wall.specs.View.{state_of, done_reply};

use crate::inner::Core;
use board::Board;
use chooser::Chooser;
use flood::Ends;
use rules::{Outcome, Refusal, SlotAnswer, StepCounts};
use traffic::Flight;
use tray::Tray;
use wiring::Wiring;

impl Core {
    // The plain part of a wall at power-up.
    pub(crate) fn power_up<W: Wiring>(wiring: &W) -> Core
        ensures state { state_of (W.Wiring.layout wiring.now) result ≡ power_up (W.Wiring.layout wiring.now) }
        ensures promise { Promised (W.Wiring.layout wiring.now) (state_of (W.Wiring.layout wiring.now) result) }
    {
        let ends = Ends::of(wiring);
        let board = Board::power_up(&ends, wiring.node_count());
        let flight = Flight::new();
        Core {
            board,
            flight,
            owner: 0,
        }
    }

    pub(crate) fn cut(&mut self, ends: &Ends, count: u8, node: u8, port: u8) -> Result<(), Refusal>
        ensures { OfEnds count ends.now.at (Called self.old (cut node port) (done_reply result) self.new) }
    {
        self.fit(count);
        self.board.cut(ends, node, port)
    }

    pub(crate) fn hand(&mut self, count: u8, node: u8) -> Result<(), Refusal>
        ensures { OfCount count (Called self.old (hand node) (done_reply result) self.new) }
    {
        self.fit(count);
        self.board.hand(node)
    }

    pub(crate) fn next_slot(&mut self, ends: &Ends, count: u8) -> SlotAnswer
        ensures { OfEnds count ends.now.at (Called self.old slot_call (slotted result) self.new) }
    {
        self.fit(count);
        self.slot(ends)
    }

    pub(crate) fn post(
        &mut self,
        count: u8,
        source: u8,
        destination: u8,
        word: u32,
    ) -> Result<u32, Refusal>
        ensures { OfCount count (Called self.old (post source destination word) (post_reply result) self.new) }
    {
        self.fit(count);
        self.flight.post(&self.board, source, destination, word)
    }

    // A step asks the wiring port by port, where packets stand.
    pub(crate) fn step<W: Wiring, C: Chooser>(
        &mut self,
        wiring: &W,
        chooser: &mut C,
        tray: &mut Tray<Outcome>,
    ) -> Result<StepCounts, Refusal>
        ensures { StepCall C.Chooser.picks (W.Wiring.layout wiring.now) result (state_of (W.Wiring.layout wiring.now) self.old) tray.old chooser.old (state_of (W.Wiring.layout wiring.now) self.new) tray.new chooser.new }
    {
        self.fit(wiring.node_count());
        self.flight.step(&self.board, wiring, chooser, tray)
    }
}
