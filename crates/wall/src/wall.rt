//! The generic wall and the five calls that change it.
ghost use Rattle.std.specs.Prelude.{◌≡◌};
ghost use Rattle.rules.specs.State.{power_up};
ghost use Rattle.rules.specs.Runs.{cut, hand, slot_call, post, slotted, Does};
ghost use Rattle.rules.specs.Promise.{Promised};
ghost use Rattle.traffic.specs.Posting.{post_reply};
ghost use Rattle.wall.specs.View.{state_of, done_reply};
ghost use Rattle.wall.specs.Steps.{StepCall};

use crate::inner::Core;
use chooser::Chooser;
use flood::Ends;
use rules::{Outcome, Refusal, SlotAnswer, StepCounts};
use tray::Tray;
use wiring::Wiring;

/// A wall put together from one wiring and one chooser.
///
/// ```
/// let mut wall = Wall::power_up(mesh, LowestPort::new());
/// let answer = wall.slot();
/// ```
#[derive(Drop)]
pub struct Wall<W, C> {
    pub(crate) wiring: W,
    pub(crate) chooser: C,
    pub(crate) core: Core,
}

// Each call says by itself what it keeps; step keeps the wiring alone.
impl<W: Wiring, C: Chooser> Wall<W, C> {
    /// A wall at power-up: every node new with its hand up, all cables live, nothing marked, all
    /// tables empty, no packet. Of every state that a run of calls reaches from it, in any order
    /// and with any arguments, the promise of the rules holds.
    pub fn power_up(wiring: W, chooser: C) -> Wall<W, C>
        ensures parts { (result.wiring ≡ wiring) × (result.chooser ≡ chooser) }
        ensures state { state_of (W.Wiring.layout result.wiring) result.core ≡ power_up (W.Wiring.layout result.wiring) }
        ensures promise { Promised (W.Wiring.layout result.wiring) (state_of (W.Wiring.layout result.wiring) result.core) }
    {
        let core = Core::power_up(&wiring);
        Wall {
            wiring,
            chooser,
            core,
        }
    }

    /// Cuts the cable at a port of a node: it is dead from then on, and the hands of both ends go
    /// up. Refused: node out of range (12), port out of range (13), no cable there (16), already
    /// cut (17).
    pub fn cut(&mut self, node: u8, port: u8) -> Result<(), Refusal>
        ensures does { Does (W.Wiring.layout self.old.wiring) (state_of (W.Wiring.layout self.old.wiring) self.old.core) (cut node port) (done_reply result) (state_of (W.Wiring.layout self.new.wiring) self.new.core) }
        ensures parts { (self.new.wiring ≡ self.old.wiring) × (self.new.chooser ≡ self.old.chooser) }
    {
        let ends = Ends::of(&self.wiring);
        let count = self.wiring.node_count();
        self.core.cut(&ends, count, node, port)
    }

    /// Raises a node's hand: the node asks for a recovery. A hand raised again is accepted and
    /// alters nothing. Refused: node out of range (12).
    pub fn hand(&mut self, node: u8) -> Result<(), Refusal>
        ensures does { Does (W.Wiring.layout self.old.wiring) (state_of (W.Wiring.layout self.old.wiring) self.old.core) (hand node) (done_reply result) (state_of (W.Wiring.layout self.new.wiring) self.new.core) }
        ensures parts { (self.new.wiring ≡ self.old.wiring) × (self.new.chooser ≡ self.old.chooser) }
    {
        let count = self.wiring.node_count();
        self.core.hand(count, node)
    }

    /// The slot of the next owner.
    pub fn slot(&mut self) -> SlotAnswer
        ensures does { Does (W.Wiring.layout self.old.wiring) (state_of (W.Wiring.layout self.old.wiring) self.old.core) slot_call (slotted result) (state_of (W.Wiring.layout self.new.wiring) self.new.core) }
        ensures parts { (self.new.wiring ≡ self.old.wiring) × (self.new.chooser ≡ self.old.chooser) }
    {
        let ends = Ends::of(&self.wiring);
        let count = self.wiring.node_count();
        self.core.next_slot(&ends, count)
    }

    /// Posts a packet with a word from a source to a destination; the answer is its number.
    /// Refused: node out of range (12), source equals destination (14), source not serving (18),
    /// no entry at the source (19), 256 packets in flight (20), numbers used up (21).
    pub fn post(&mut self, source: u8, destination: u8, word: u32) -> Result<u32, Refusal>
        ensures does { Does (W.Wiring.layout self.old.wiring) (state_of (W.Wiring.layout self.old.wiring) self.old.core) (post source destination word) (post_reply result) (state_of (W.Wiring.layout self.new.wiring) self.new.core) }
        ensures parts { (self.new.wiring ≡ self.old.wiring) × (self.new.chooser ≡ self.old.chooser) }
    {
        let count = self.wiring.node_count();
        self.core.post(count, source, destination, word)
    }

    /// Takes every packet in flight once, by rising number. What is delivered or returned goes
    /// into the tray. Refused: a tray with fewer free places than packets in flight (15).
    pub fn step(&mut self, tray: &mut Tray<Outcome>) -> Result<StepCounts, Refusal>
        ensures does { StepCall C.Chooser.picks (W.Wiring.layout self.old.wiring) result (state_of (W.Wiring.layout self.old.wiring) self.old.core) tray.old self.old.chooser (state_of (W.Wiring.layout self.new.wiring) self.new.core) tray.new self.new.chooser }
        ensures wiring { self.new.wiring ≡ self.old.wiring }
    {
        self.core.step(&self.wiring, &mut self.chooser, tray)
    }
}
