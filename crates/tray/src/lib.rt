//! Trays. A tray fills a lent stretch of memory from the front and never passes its end: packet outcomes go into
//! one, the bytes of a page into another. A put is accepted exactly when every element has a free place, and a
//! refused one alters nothing.
//!
//! What a tray holds is said by `filled` and `rest`, and what a put does by `Puts` and `AllOrNone`, in
//! `specs/Filled.antt`; the laws by which a caller reasons on stand in `proofs/Filled.antt`. The examples in the
//! comments are from the tests at the end of this file, which are proved and run.
#![tactic(auto)]

mod calls;
mod types;

pub use types::{Tray, TrayFull};

#[cfg(test)]
mod tests {
    use super::*;

    #[derive(Clone, Copy, PartialEq, Eq, Debug)]
    struct Parcel {
        number: u32,
        node: u8,
    }

    #[test]
    fn the_lender_finds_what_was_put_in(rt: HostRuntime) {
        let mut bytes = [9u8; 4];
        let mut tray = Tray::new(&mut bytes);
        assert_eq!(rt; tray.put(7), Ok(()));
        assert_eq!(rt; tray.put_all(&[1, 2, 3, 4]), Err(TrayFull));
        assert_eq!(rt; tray.put_all(&[1, 2]), Ok(()));
        assert_eq!(rt; bytes, [7, 1, 2, 9]);
    }

    #[test]
    fn a_tray_tells_what_it_holds(rt: HostRuntime) {
        let mut bytes = [9u8; 4];
        let mut tray = Tray::new(&mut bytes);
        let _ = tray.put_all(&[7, 1, 2]);
        assert_eq!(rt; tray.used(), 3);
        assert_eq!(rt; tray.free(), 1);
        assert_eq!(rt; tray.get(2), Some(2));
        assert_eq!(rt; tray.get(3), None);
        assert_eq!(rt; tray.as_slice(), [7, 1, 2].as_slice());
    }

    #[test]
    fn a_full_tray_refuses_a_struct(rt: HostRuntime) {
        let first = Parcel { number: 1, node: 5 };
        let second = Parcel { number: 2, node: 6 };
        let mut parcels = [second];
        let mut tray = Tray::new(&mut parcels);
        assert_eq!(rt; tray.put(first), Ok(()));
        assert_eq!(rt; tray.put(second), Err(TrayFull));
        assert_eq!(rt; TrayFull.number(), 15);
        assert_eq!(rt; parcels, [first]);
    }
}
