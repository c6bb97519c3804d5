//! Packets go home when the node where they stand ends its recovery.
ghost use Rattle.std.specs.Prelude.{◌≡◌, map};
ghost use Rattle.rules.specs.Slot.{sent_home};
ghost use Rattle.board.specs.View.{nodes_view};
ghost use Rattle.traffic.specs.View.{packets_view};

use crate::reads::mode_at;
use crate::types::Flight;
use board::Board;
use rules::Packet;

impl Flight {
    /// The packets standing at a node that serves from the end of this slot on go home. The board
    /// is that of the slot's end, before its nodes count the slot.
    pub fn send_home(&mut self, board: &Board)
        ensures packets { packets_view self.new ≡ map (sent_home (nodes_view board.now)) (packets_view self.old) }
        ensures last { self.new.last ≡ self.old.last }
    {
        // By index: the whole array would be 256 turns for a few packets, and of a part that is lent
        // nothing is known afterwards.
        for i in 0..self.count {
            self.places[i] = sent_home(board, self.places[i]);
        }
    }
}

// The packet, at home if its node ends its recovery.
#[tactic(auto, unfolding(rules::specs::Slot::sent_home))]
fn sent_home(board: &Board, x: Packet) -> Packet
    ensures { result ≡ sent_home (nodes_view board.now) x }
{
    if mode_at(board, x.node).ends_recovery() {
        Packet {
            standing: None,
            ..x
        }
    } else {
        x
    }
}
