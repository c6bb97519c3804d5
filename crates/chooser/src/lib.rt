//! Port sets and choosers. A packet that may leave its node by several ports leaves by the one that the wall's
//! chooser picks; a chooser answers a port of the offer and may remember something for the next time.
//!
//! The meaning of a set is `has`, and every set is told by `ports_where`, in `specs/PortSets.antt`; what the two
//! choosers pick is said in `specs/Picks.antt`. The laws of sets stand in `proofs/PortSets.antt`. The examples in
//! the comments are from the tests at the end of this file, which are proved and run.
#![tactic(auto)]

mod choosers;
mod ports;

pub use choosers::{Chooser, LowestPort, RoundRobin};
pub use ports::PortSet;

#[cfg(test)]
mod tests {
    use super::*;

    #[test]
    fn sets_hold_ports(rt: HostRuntime) {
        let sides = PortSet::empty().with(1).with(3);
        assert_eq!(rt; sides, PortSet::from([false, true, false, true]));
        assert!(rt; sides.contains(3) && !sides.contains(4));
        assert_eq!(rt; sides.without(3), PortSet::empty().with(1));
        assert!(rt; !sides.is_empty() && sides.len() == 2 && sides.bits() == 10);
    }

    #[test]
    fn the_lowest_port_is_picked(rt: HostRuntime) {
        let sides = PortSet::empty().with(1).with(3);
        let mut chooser = LowestPort::new();
        assert_eq!(rt; chooser.pick(sides), 1);
        assert_eq!(rt; chooser.pick(sides), 1);
        assert_eq!(rt; chooser.pick(PortSet::empty()), 0);
    }

    #[test]
    fn the_picks_go_round(rt: HostRuntime) {
        let sides = PortSet::empty().with(1).with(3);
        let mut chooser = RoundRobin::new();
        assert_eq!(rt; chooser.pick(sides), 1);
        assert_eq!(rt; chooser.pick(PortSet::empty()), 0);
        assert_eq!(rt; chooser.pick(sides), 3);
        assert_eq!(rt; chooser.pick(sides), 1);
    }
}
