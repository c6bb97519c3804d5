//! A running hash of 64 bits, FNV-1a. specs/Hash.antt has it.
ghost use Rattle.std.specs.Prelude.{◌≡◌, fold};
ghost use Rattle.damaged.specs.Hash.{hashed_byte};

use std::fmt;

/// The hash of nothing.
pub const START: u64 = 0xcbf2_9ce4_8422_2325;

/// A hash of bytes, at first of none.
#[derive(Clone, Copy)]
pub struct Hash(u64);

impl Default for Hash {
    fn default() -> Hash {
        Hash(START)
    }
}

// The hash with one byte more.
fn hash_byte(hash: u64, byte: u8) -> u64
    ensures { result ≡ hashed_byte hash byte }
{
    (hash ^ u64::from(byte)).wrapping_mul(0x100_0000_01b3)
}

impl Hash {
    /// Takes some bytes more.
    pub(crate) fn take(&mut self, bytes: &[u8])
        ensures { self.new.0 ≡ fold hashed_byte self.old.0 bytes.now }
    {
        self.0 = bytes
            .iter()
            .fold(self.0, |hash, byte| hash_byte(hash, *byte));
    }
}

impl fmt::Display for Hash {
    fn fmt<W: fmt::Write>(&self, f: &mut fmt::Formatter<W>) -> fmt::Result {
        let hash = self.0;
        write!(f, "{hash:016x}")
    }
}
