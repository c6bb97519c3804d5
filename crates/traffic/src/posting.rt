//! A wall without packets, and posting one.
ghost use Rattle.std.specs.Prelude.{◌≡◌, ◌<◌, [], MatchResult, None, Some};
ghost use Rattle.traffic.specs.View.{packets_view};
ghost use Rattle.traffic.specs.Posting.{why_not, Posts};

use crate::reads::{entry_at, mode_at};
use crate::types::Flight;
use board::Board;
use rules::{Packet, Refusal};

const EMPTY: Packet = Packet {
    number: 0,
    source: 0,
    destination: 0,
    word: 0,
    node: 0,
    standing: None,
};

impl Flight {
    /// No packet in flight, and no number given out.
    pub fn new() -> Flight
        ensures packets { packets_view result ≡ [] }
        ensures last { result.last ≡ 0 }
    {
        Flight {
            places: [EMPTY; 256],
            count: 0,
            last: 0,
        }
    }

    /// Posts a packet with this word: it stands at home at its source and gets the next number,
    /// which is the answer. A refusal leaves all packets as they stood.
    #[tactic(auto, using(crate::proofs::Posted::post_turned_down, crate::proofs::Posted::post_done))]
    pub fn post(
        &mut self,
        board: &Board,
        source: u8,
        destination: u8,
        word: u32,
    ) -> Result<u32, Refusal>
        ensures does { Posts board.now source destination word self.old result self.new }
        ensures same { MatchResult result (λ number. number ≡ self.new.last) (λ reason. self.new ≡ self.old) }
    {
        self.check_post(board, source, destination)?;
        let number = self.last + 1;
        self.places[self.count] = Packet {
            number,
            source,
            destination,
            word,
            node: source,
            standing: None,
        };
        self.count += 1;
        self.last = number;
        Ok(number)
    }

    // Why a post is refused, if it is: the first check that fails.
    fn check_post(&self, board: &Board, source: u8, destination: u8) -> Result<(), Refusal>
        ensures reason { MatchResult result (λ _. why_not board.now self.now source destination ≡ None) (λ reason. why_not board.now self.now source destination ≡ Some reason) }
        ensures room { MatchResult result (λ _. (source < board.now.count) × (self.now.count < 256) × (self.now.last < 4294967295)) (λ reason. reason ≡ reason) }
    {
        if source >= board.count || destination >= board.count {
            return Err(Refusal::NodeOutOfRange);
        }
        if source == destination {
            return Err(Refusal::SameNode);
        }
        if !mode_at(board, source).serves() {
            return Err(Refusal::SourceNotServing);
        }
        if entry_at(board, source, destination).is_none() {
            return Err(Refusal::NoEntry);
        }
        if self.count >= 256 {
            return Err(Refusal::WallFull);
        }
        if self.last == u32::MAX {
            return Err(Refusal::NumbersUsedUp);
        }
        Ok(())
    }
}
