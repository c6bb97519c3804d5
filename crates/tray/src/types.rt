// The types. They stand in a file of their own, since the definitions of `specs/Filled.antt`, which the calls
// cite, name them.
ghost use Rattle.std.specs.Prelude.{◌≤◌, length};

/// The refusal of a tray with fewer free places than elements to put in. It is a refusal of the wall's layer, with
/// index 0 and place 0, and its number is 15.
///
/// ```
/// assert_eq!(rt; tray.put_all(&[1, 2, 3, 4]), Err(TrayFull));
/// ```
#[derive(Clone, Copy, PartialEq, Eq, Debug)]
pub struct TrayFull;

/// A lent stretch of memory that is filled from the front. `used` places are in use, never more than there are.
///
/// ```
/// let mut bytes = [9u8; 4];
/// let mut tray = Tray::new(&mut bytes);
/// assert_eq!(rt; tray.put(7), Ok(()));
/// assert_eq!(rt; tray.put_all(&[1, 2]), Ok(()));
/// assert_eq!(rt; bytes, [7, 1, 2, 9]);
/// ```
#[derive(Drop)]
pub struct Tray<'a, T: Copy> {
    // Lent memory and no heap: a slice, and how much of it is in use.
    pub(crate) slots: &'a mut [T],
    pub(crate) used: usize,
    ghost within: { used ≤ length slots.now },
}
