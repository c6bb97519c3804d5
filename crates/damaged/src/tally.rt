//! What was answered, counted. A count stays at its largest value once it has come to it.
ghost use Rattle.std.specs.Prelude.{◌≡◌, fold};
ghost use Rattle.damaged.specs.Hash.{hashed_byte};

use crate::hash::Hash;
use std::num::Saturating;

/// The files that were refused by one number, and the sum of the places.
#[derive(Clone, Copy, Default)]
pub struct Refused {
    pub files: Saturating<u64>,
    pub places: Saturating<u64>,
}

/// The answers to all files.
#[derive(Clone, Copy, Default)]
pub struct Tally {
    /// Files that were accepted, and the bytes of all their texts.
    pub accepted: Saturating<u64>,
    pub text: Saturating<u64>,
    /// Files that were refused by 1 to 10.
    pub refused: [Refused; 10],
    /// The page of one node of an accepted file: given, refused by 12, refused by 15.
    pub given: Saturating<u64>,
    pub no_node: Saturating<u64>,
    pub no_room: Saturating<u64>,
    /// Refused calls that altered the memory for the page.
    pub altered: Saturating<u64>,
    /// The hash of all answers.
    pub hash: Hash,
}

impl Tally {
    /// Notes an accepted file with a text of so many bytes.
    pub(crate) fn accept(&mut self, bytes: usize)
        ensures { self.new.hash ≡ self.old.hash }
    {
        self.accepted += 1;
        self.text += bytes as u64;
    }

    /// Notes a file that is refused by a number at a place.
    pub(crate) fn refuse(&mut self, number: u8, place: u16) {
        if let Some(at) = usize::from(number).checked_sub(1)
            && let Some(refused) = self.refused.get_mut(at)
        {
            refused.files += 1;
            refused.places += u64::from(place);
        }
    }

    /// Takes some bytes into the hash.
    pub(crate) fn take(&mut self, bytes: &[u8])
        ensures { self.new.hash.0 ≡ fold hashed_byte self.old.hash.0 bytes.now }
    {
        self.hash.take(bytes);
    }

    /// The smallest number of files that got one of the answers: accepted, or refused by 1 to 10.
    pub(crate) fn fewest(&self) -> Saturating<u64> {
        self.refused
            .iter()
            .fold(self.accepted, |fewest, refused| fewest.min(refused.files))
    }
}
