//! What can be asked about the packets in flight.
ghost use Rattle.std.specs.Prelude.{◌≡◌, length};
ghost use Rattle.std.specs.List.{slice_get};
ghost use Rattle.traffic.specs.View.{packets_view};

use crate::types::Flight;
use rules::Packet;

impl Flight {
    /// How many packets are in flight.
    pub fn in_flight(&self) -> usize
        ensures { result ≡ length (packets_view self.now) }
    {
        self.packets().len()
    }

    /// The packet with so many others in flight before it, by rising number.
    #[tactic(auto, using(crate::proofs::Standing::in_flight))]
    pub fn packet(&self, i: usize) -> Option<Packet>
        ensures { result ≡ slice_get (packets_view self.now) i }
    {
        self.places[..self.in_flight()].get(i).copied()
    }

    // The packets in flight.
    pub(crate) fn packets(&self) -> &[Packet]
        ensures { result.now ≡ packets_view self.now }
    {
        &self.places[..self.count]
    }

    /// The last number given out, 0 before the first post.
    pub fn last_number(&self) -> u32
        ensures { result ≡ self.now.last }
    {
        self.last
    }
}
