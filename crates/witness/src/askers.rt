// Callers that ask a chooser.
ghost use Rattle.std.specs.Prelude.{◌≡◌, ℕ, true, false, List, [], ◌∷◌, length, if◌then◌else◌, Ok, Err, MatchResult, nat_le};
ghost use Rattle.chooser.specs.PortSets.{has, vacant};
ghost use Rattle.tray.specs.Filled.{rest, Puts, tray_full};
ghost use Rattle.witness.specs.Asked.{Asked};

use chooser::{Chooser, PortSet, RoundRobin};
use tray::{Tray, TrayFull};

/// Two picks, which are the chooser's own answers in order; a port of the offer is picked each time there is one.
fn pick_twice<C: Chooser>(chooser: &mut C, first: PortSet, second: PortSet) -> (u8, u8)
    ensures asked { Asked C.Chooser.picks chooser.old (first ∷ second ∷ []) (result.0 ∷ result.1 ∷ []) chooser.new }
    ensures inside { (vacant first ≡ false → has first result.0 ≡ true) × (vacant second ≡ false → has second result.1 ≡ true) }
    ensures none { vacant first ≡ true → vacant second ≡ true → chooser.new ≡ chooser.old }
{
    let a = chooser.pick(first);
    let b = chooser.pick(second);
    (a, b)
}

/// Two picks of a new round-robin chooser between ports 1 and 3.
fn two_turns() -> (u8, u8)
    ensures first { result.0 ≡ 1 }
    ensures second { result.1 ≡ 3 }
{
    let offer = PortSet::empty().with(1).with(3);
    let mut chooser = RoundRobin::new();
    let a = chooser.pick(offer);
    let b = chooser.pick(offer);
    (a, b)
}

/// Asks the chooser once for each offer and puts the picks into the tray. Where they do not fit, the chooser is not
/// asked.
fn pick_all<C: Chooser>(
    chooser: &mut C,
    offers: &[PortSet],
    tray: &mut Tray<u8>,
) -> Result<(), TrayFull>
    ensures answer { result ≡ (if nat_le (length offers.now) (length (rest tray.old)) then Ok tt else Err tray_full) }
    ensures outcome { MatchResult result (λ _. (ports : List ℕ) × Asked C.Chooser.picks chooser.old offers.now ports chooser.new × Puts ports tray.old tray.new) (λ _. (chooser.new ≡ chooser.old) × (tray.new ≡ tray.old)) }
{
    if tray.free() < offers.len() {
        return Err(TrayFull);
    }
    for offer in offers {
        let port = chooser.pick(*offer);
        let _ = tray.put(port);
    }
    Ok(())
}
