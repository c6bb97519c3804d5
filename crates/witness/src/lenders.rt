// Lenders, and callers that fill a tray.
ghost use Rattle.std.specs.Prelude.{◌≡◌, [], ◌∷◌, length, drop, replicate, is_ok, if◌then◌else◌};
ghost use Rattle.tray.specs.Filled.{rest, Puts, AllOrNone};

use tray::{Tray, TrayFull};

/// Something to put into a tray.
#[derive(Clone, Copy, PartialEq, Eq, Debug)]
struct Parcel {
    number: u32,
    node: u8,
}

/// An array of bytes that was lent to a tray and filled.
fn byte_page() -> [u8; 4]
    ensures { result ≡ 7 ∷ 1 ∷ 2 ∷ 9 ∷ [] }
{
    let mut bytes = [9u8; 4];
    let mut tray = Tray::new(&mut bytes);
    let _ = tray.put(7);
    let _ = tray.put_all(&[1, 2]);
    bytes
}

/// An array of structs that was lent to a tray and filled; the third put is refused.
fn parcel_page(x: Parcel, y: Parcel) -> [Parcel; 2]
    ensures { result ≡ x ∷ y ∷ [] }
{
    let mut parcels = [y, x];
    let mut tray = Tray::new(&mut parcels);
    let _ = tray.put(x);
    let _ = tray.put(y);
    let _ = tray.put(x);
    parcels
}

/// Lends `memory` on to a tray and puts `x` in.
fn one_parcel(memory: &mut [Parcel], x: Parcel) -> Result<(), TrayFull>
    ensures { memory.new ≡ (if is_ok result then x ∷ drop 1 memory.old else memory.old) }
{
    let mut tray = Tray::new(memory);
    tray.put(x)
}

/// Puts two elements in or none, and lets the answers of the tray go.
fn put_two<T: Copy>(tray: &mut Tray<T>, x: T, y: T) -> Result<(), TrayFull>
    ensures { AllOrNone (x ∷ y ∷ []) tray.old tray.new result }
{
    if tray.free() < 2 {
        return Err(TrayFull);
    }
    let _ = tray.put(x);
    let _ = tray.put(y);
    Ok(())
}

/// Puts `x` into every free place.
fn fill_up<T: Copy>(tray: &mut Tray<T>, x: T)
    ensures { Puts (replicate (length (rest tray.old)) x) tray.old tray.new }
{
    let count = tray.free();
    for _i in 0..count {
        let _ = tray.put(x);
    }
}
