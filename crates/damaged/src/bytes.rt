//! The bytes of a file that need not be a good one.
ghost use Rattle.std.specs.Prelude.{◌≡◌, ◌+◌, ◌<◌, ◌≤◌, ◌++◌, ◌∷◌, [], min, length, take, IfSome, slice_get, slice_index, slice_set};

/// No file is longer.
pub const MOST: usize = 600;

/// The bytes of a file, up to 600.
// An array and a count, and no ArrayVec, so that it is Copy.
#[derive(Clone, Copy)]
pub struct FileBytes {
    bytes: [u8; MOST],
    used: usize,
    ghost within: { used ≤ 600 },
    ghost long: { length bytes ≡ 600 },
}

impl FileBytes {
    /// A file of no byte.
    pub(crate) fn new() -> FileBytes
        ensures used { result.used ≡ 0 }
        ensures items { take result.used result.bytes ≡ [] }
    {
        FileBytes {
            bytes: [0; MOST],
            used: 0,
        }
    }

    /// How many bytes the file has.
    pub(crate) fn len(&self) -> usize
        ensures count { result ≡ self.now.used }
        ensures fits { result ≤ 600 }
    {
        self.used
    }

    /// The byte at a place; 0 behind the file's end.
    pub(crate) fn get(&self, at: usize) -> u8
        ensures byte { at < self.now.used → result ≡ slice_index self.now.bytes at }
        ensures item { IfSome (slice_get (take self.now.used self.now.bytes) at) (λ byte. result ≡ byte) }
    {
        if at < self.used { self.bytes[at] } else { 0 }
    }

    /// Writes over the byte at a place. Behind the file's end nothing is written.
    pub(crate) fn set(&mut self, at: usize, byte: u8)
        ensures used { self.new.used ≡ self.old.used }
        ensures bytes { at < self.old.used → self.new.bytes ≡ slice_set self.old.bytes at byte }
        ensures items { take self.new.used self.new.bytes ≡ slice_set (take self.old.used self.old.bytes) at byte }
    {
        if at < self.used {
            self.bytes[at] = byte;
        }
    }

    /// Flips a bit of the byte at a place, the lowest being bit 0. Behind the file's end nothing is flipped.
    pub(crate) fn flip(&mut self, at: usize, bit: u8) {
        let byte = self.get(at);
        self.set(at, byte ^ (1 << (bit % 8)));
    }

    /// Writes one byte more behind the others. Past 600 nothing is written.
    pub(crate) fn push(&mut self, byte: u8)
        ensures more { self.old.used < 600 → (self.new.used ≡ self.old.used + 1) × (self.new.bytes ≡ slice_set self.old.bytes self.old.used byte) }
        ensures items { self.old.used < 600 → take self.new.used self.new.bytes ≡ take self.old.used self.old.bytes ++ byte ∷ [] }
    {
        if self.used < MOST {
            let at = self.used;
            self.bytes[at] = byte;
            self.used = at + 1;
        }
    }

    /// Writes some bytes more behind the others, as many as have room.
    pub(crate) fn push_all(&mut self, more: &[u8]) {
        for byte in more {
            self.push(*byte);
        }
    }

    /// Cuts the file off, so that it has no more bytes than this.
    pub(crate) fn cut(&mut self, most: usize)
        ensures used { self.new.used ≡ min self.old.used most }
        ensures bytes { self.new.bytes ≡ self.old.bytes }
        ensures items { take self.new.used self.new.bytes ≡ take most (take self.old.used self.old.bytes) }
    {
        self.used = self.used.min(most);
    }

    /// The bytes of the file.
    pub(crate) fn as_slice(&self) -> &[u8]
        ensures { result.now ≡ take self.now.used self.now.bytes }
    {
        &self.bytes[..self.used]
    }
}
