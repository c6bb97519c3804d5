//! Numbers as a script writes them. specs/Numbers.antt says which words are numbers, and which.
ghost use Rattle.std.specs.Prelude.{◌≡◌, min, None, Err, is_some};
ghost use Rattle.std.specs.Char.{is_ascii_digit, is_ascii_hexdigit};
ghost use Rattle.std.specs.List.{list_all};
ghost use Rattle.script.specs.Numbers.{number_of, bytes_of, ReadsBytes};
ghost use Rattle.script.specs.declared.trouble.Trouble.TheVariants.{CannotRead};

use crate::trouble::Trouble;
use std::alloc::Global;

fn are_digits(word: &[u8]) -> bool
    ensures { result ≡ list_all is_ascii_digit word.now }
{
    word.iter().all(|b| b.is_ascii_digit())
}

/// The number that a word writes in decimal, up to 4294967295.
pub fn number(word: &[u8]) -> Option<u32>
    ensures { result ≡ number_of word.now }
{
    // The library reads a sign too, which no number of a script has.
    if !are_digits(word) {
        return None;
    }
    str::from_utf8(word).ok()?.parse().ok()
}

/// A number as a node or a port of a wall's: one above 255 becomes 255, which no wall has either, so
/// it is refused for the same reason.
pub fn as_byte(n: u32) -> u8
    ensures { result ≡ min n 255 }
{
    u8::try_from(n).unwrap_or(255)
}

fn are_hex_digits(word: &[u8]) -> bool
    ensures { result ≡ list_all is_ascii_hexdigit word.now }
{
    word.iter().all(|b| b.is_ascii_hexdigit())
}

// Whether a word is of hexadecimal digits, two by two.
#[tactic(auto, using(crate::proofs::Hex::odd, crate::proofs::Hex::even))]
fn writes_bytes(word: &[u8]) -> bool
    ensures { result ≡ is_some (bytes_of word.now) }
{
    if word.len() % 2 != 0 {
        return false;
    }
    are_hex_digits(word)
}

// The library asks for memory before it looks at a digit.
fn decoded(heap: Global, word: &[u8]) -> Result<Vec<u8>, Trouble>
    ensures { ReadsBytes (bytes_of word.now) result }
{
    Ok(hex::decode(heap, word)?)
}

/// The bytes that a word writes in hexadecimal, two digits to a byte, of either case. A word that
/// writes none is refused as such, whatever memory there is.
pub fn hex_bytes(heap: Global, word: &[u8]) -> Result<Vec<u8>, Trouble>
    ensures reads { ReadsBytes (bytes_of word.now) result }
    ensures refuses { bytes_of word.now ≡ None → result ≡ Err CannotRead }
{
    if !writes_bytes(word) {
        return Err(Trouble::CannotRead);
    }
    decoded(heap, word)
}
