// The interface of a chooser, and the two choosers.
ghost use Rattle.std.specs.Prelude.{◌≡◌, ℕ, ◌+◌, ◌%◌, true, false, if◌then◌else◌};
ghost use Rattle.chooser.specs.declared.choosers.LowestPort.{LowestPort};
ghost use Rattle.chooser.specs.declared.ports.PortSet.{PortSet};
ghost use Rattle.chooser.specs.PortSets.{has, vacant};
ghost use Rattle.chooser.specs.Picks.{first_of, lowest_first, following};
ghost use Rattle.std.proofs.Common.{rules};

use crate::ports::PortSet;

/// What picks one of the ports that are offered. Its value is what it remembers.
///
/// `picks before offer port after` says that this chooser, with the value `before`, answers `port` to `offer` and
/// has the value `after` then. A caller's contract cites it to say that a port is really the chooser's answer.
pub trait Chooser {
    ghost picks: { Self → PortSet → ℕ → Self → Type 0 };

    /// A port of the offer, or 0 if it is empty.
    ///
    /// ```
    /// assert_eq!(rt; chooser.pick(sides), 1);
    /// assert_eq!(rt; chooser.pick(PortSet::empty()), 0);
    /// ```
    fn pick(&mut self, offer: PortSet) -> u8
        ensures { picks self.old offer result self.new };

    // A port of the offer is picked, if there is one.
    ghost inside: { (before after : Self) (offer : PortSet) (port : ℕ) → picks before offer port after → vacant offer ≡ false → has offer port ≡ true };

    // Offered none, it answers 0 and remembers what it did.
    ghost none: { (before after : Self) (offer : PortSet) (port : ℕ) → picks before offer port after → vacant offer ≡ true → (port ≡ 0) × (after ≡ before) };
}

/// The chooser that takes the lowest port. It remembers nothing.
///
/// ```
/// let mut chooser = LowestPort::new();
/// assert_eq!(rt; chooser.pick(sides), 1);
/// assert_eq!(rt; chooser.pick(sides), 1);
/// ```
#[derive(Clone, Copy, PartialEq, Eq, Debug)]
pub struct LowestPort;

impl LowestPort {
    /// The chooser; it has only this value.
    ///
    /// ```
    /// let mut chooser = LowestPort::new();
    /// ```
    pub fn new() -> LowestPort
        ensures { (other : LowestPort) → result ≡ other }
    {
        LowestPort
    }
}

impl Chooser for LowestPort {
    ghost picks = { λ before offer port after. (port ≡ first_of (has offer) lowest_first) × (after ≡ before) };

    ghost inside = { Prim.search rules };

    ghost none = { Prim.search rules };

    fn pick(&mut self, offer: PortSet) -> u8 {
        first_of(offer, [0, 1, 2, 3])
    }
}

/// The chooser that takes the next offered port after its last pick, going round from 3 to 0. It remembers that
/// pick.
///
/// ```
/// let mut chooser = RoundRobin::new();
/// assert_eq!(rt; chooser.pick(sides), 1);
/// assert_eq!(rt; chooser.pick(PortSet::empty()), 0);
/// assert_eq!(rt; chooser.pick(sides), 3);
/// assert_eq!(rt; chooser.pick(sides), 1);
/// ```
#[derive(Clone, Copy, PartialEq, Eq, Debug)]
pub struct RoundRobin {
    last: u8,
}

impl RoundRobin {
    /// A chooser that has picked nothing. It remembers port 3, so its first round begins at port 0.
    ///
    /// ```
    /// let mut chooser = RoundRobin::new();
    /// ```
    pub fn new() -> RoundRobin
        ensures { result.last ≡ 3 }
    {
        RoundRobin { last: 3 }
    }
}

impl Chooser for RoundRobin {
    ghost picks = { λ before offer port after. (port ≡ first_of (has offer) (following before.last)) × (after.last ≡ (if vacant offer then before.last else port)) };

    ghost inside = { Prim.search rules };

    ghost none = { Prim.search rules };

    fn pick(&mut self, offer: PortSet) -> u8 {
        let last = self.last % 4;
        // The order as following has it.
        let port = first_of(
            offer,
            [(last + 1) % 4, (last + 2) % 4, (last + 3) % 4, last],
        );
        if !offer.is_empty() {
            self.last = port;
        }
        port
    }
}

// The first port of the order that is offered, 0 if none is.
#[tactic(auto, using(crate::proofs::Picks::first_found))]
fn first_of(offer: PortSet, order: [u8; 4]) -> u8
    ensures { result ≡ first_of (has offer) order }
{
    order
        .iter()
        .find(|port| offer.contains(**port))
        .copied()
        .unwrap_or(0)
}
