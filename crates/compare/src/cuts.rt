//! The cuts of a trial, in the order in which they were made.
ghost use Rattle.std.specs.Prelude.{◌≡◌, ◌+◌, ◌<◌, ◌≤◌, length, take, slice_set};

/// A cut, and how many slots had run before it.
#[derive(Clone, Copy, Default)]
pub struct Cut {
    pub slots: u32,
    pub node: u8,
    pub port: u8,
}

/// The cuts so far. A wall has at most 128 cables, so there is place for all.
#[derive(Clone, Copy)]
pub struct Cuts {
    list: [Cut; 128],
    count: usize,
    ghost few: { count ≤ 128 },
    ghost long: { length list ≡ 128 },
}

impl Default for Cuts {
    fn default() -> Cuts {
        Cuts::new()
    }
}

impl Cuts {
    /// No cut.
    pub(crate) fn new() -> Cuts
        ensures { result.count ≡ 0 }
    {
        Cuts {
            list: [Cut::default(); 128],
            count: 0,
        }
    }

    /// Notes one cut more. Past 128 cuts nothing is noted.
    pub(crate) fn note(&mut self, cut: Cut)
        ensures more { self.old.count < 128 → (self.new.count ≡ self.old.count + 1) × (self.new.list ≡ slice_set self.old.list self.old.count cut) }
        ensures full { 128 ≤ self.old.count → self.new ≡ self.old }
    {
        if self.count < 128 {
            self.list[self.count] = cut;
            self.count += 1;
        }
    }

    /// The cuts so far.
    pub(crate) fn as_slice(&self) -> &[Cut]
        ensures { result.now ≡ take self.now.count self.now.list }
    {
        &self.list[..self.count]
    }
}
