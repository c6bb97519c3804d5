// The calls of a tray.
ghost use Rattle.std.specs.Prelude.{◌≡◌, ◌+◌, ◌<◌, ◌≤◌, [], ◌∷◌, ◌++◌, length, take, drop};
ghost use Rattle.std.specs.List.{slice_get};
ghost use Rattle.tray.specs.Filled.{filled, rest, AllOrNone, tray_full_number};

use crate::types::{Tray, TrayFull};

impl TrayFull {
    /// The refusal's number.
    ///
    /// ```
    /// assert_eq!(rt; TrayFull.number(), 15);
    /// ```
    pub fn number(self) -> u8
        ensures { result ≡ tray_full_number }
    {
        15
    }
}

#[tactic(auto, unfolding(crate::specs::Filled::filled, crate::specs::Filled::rest))]
impl<'a, T: Copy> Tray<'a, T> {
    /// A tray over `slots`, with nothing in use. While it stands, the memory is its own; the lender then finds in
    /// it what was put in, and behind that what stood there before.
    ///
    /// ```
    /// let mut tray = Tray::new(&mut bytes);
    /// ```
    pub fn new(slots: &'a mut [T]) -> Tray<'a, T>
        ensures filled { filled result ≡ [] }
        ensures rest { rest result ≡ slots.old }
        ensures lent { result.slots.ghost_name ≡ slots.entry.ghost_name }
    {
        Tray { slots, used: 0 }
    }

    /// Puts `x` behind what is filled. A full tray refuses it and stays as it is.
    ///
    /// ```
    /// assert_eq!(rt; tray.put(7), Ok(()));
    /// ```
    pub fn put(&mut self, x: T) -> Result<(), TrayFull>
        ensures { AllOrNone (x ∷ []) self.old self.new result }
    {
        if self.free() < 1 {
            return Err(TrayFull);
        }
        let used = self.used;
        let slots = &mut self.slots;
        write_one(slots, used, x);
        self.used = used + 1;
        Ok(())
    }

    /// Puts all of `xs` behind what is filled, in their order. A tray with fewer free places refuses them all and
    /// stays as it is.
    ///
    /// ```
    /// assert_eq!(rt; tray.put_all(&[1, 2]), Ok(()));
    /// ```
    pub fn put_all(&mut self, xs: &[T]) -> Result<(), TrayFull>
        ensures { AllOrNone xs.now self.old self.new result }
    {
        if self.free() < xs.len() {
            return Err(TrayFull);
        }
        let used = self.used;
        let slots = &mut self.slots;
        write_all(slots, used, xs);
        self.used = used + xs.len();
        Ok(())
    }

    /// How many places are free: a put of so many elements, or fewer, is accepted.
    ///
    /// ```
    /// assert_eq!(rt; tray.free(), 1);
    /// ```
    pub fn free(&self) -> usize
        ensures { result ≡ length (rest self.now) }
    {
        let (_, rest) = self.slots.split_at(self.used);
        rest.len()
    }

    /// How many places are in use.
    ///
    /// ```
    /// assert_eq!(rt; tray.used(), 3);
    /// ```
    pub fn used(&self) -> usize
        ensures { result ≡ length (filled self.now) }
    {
        self.as_slice().len()
    }

    /// The element that was put in at place `i`, counted from 0; nothing at a place that is not in use.
    ///
    /// ```
    /// assert_eq!(rt; tray.get(2), Some(2));
    /// assert_eq!(rt; tray.get(3), None);
    /// ```
    pub fn get(&self, i: usize) -> Option<T>
        ensures { result ≡ slice_get (filled self.now) i }
    {
        self.as_slice().get(i).copied()
    }

    /// What was put in, in order.
    ///
    /// ```
    /// assert_eq!(rt; tray.as_slice(), [7, 1, 2].as_slice());
    /// ```
    pub fn as_slice(&self) -> &[T]
        ensures { result.now ≡ filled self.now }
    {
        &self.slots[0..self.used]
    }
}

// A put of one is not `put_all(&[x])`: that array would ask of each caller that its element fits in memory. So each of
// the two has a function that writes.

// The calls hand the slice on to the two functions below by a loan of its field, `let slots = &mut self.slots`, since
// the fact beside the field is owed again at the loan's end.

// Writes `x` over the place `at`.
fn write_one<T: Copy>(slots: &mut [T], at: usize, x: T)
    requires { at < length slots.old }
    ensures front { take (at + 1) slots.new ≡ take at slots.old ++ x ∷ [] }
    ensures back { drop (at + 1) slots.new ≡ drop 1 (drop at slots.old) }
{
    slots[at] = x;
}

// Writes `xs` over the places from `at` on.
fn write_all<T: Copy>(slots: &mut [T], at: usize, xs: &[T])
    requires { at + length xs.now ≤ length slots.old }
    ensures front { take (at + length xs.now) slots.new ≡ take at slots.old ++ xs.now }
    ensures back { drop (at + length xs.now) slots.new ≡ drop (length xs.now) (drop at slots.old) }
{
    let end = at + xs.len();
    slots[at..end].copy_from_slice(xs);
}
