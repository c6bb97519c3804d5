//! Reading a line. specs/Lines.antt says what each line means.
ghost use Rattle.std.specs.Prelude.{◌≡◌};
ghost use Rattle.std.specs.Option.{option_map};
ghost use Rattle.script.specs.Lines.{no_word, numbers_of, number_or, once_call, slots, call_of, question_of, cables_of, picker_of, cables, named_meaning, meaning_of, Says};

use crate::line::{Call, Calls, Line, Picker, Question};
use crate::numbers::{hex_bytes, number};
use crate::trouble::Trouble;
use crate::words::{code, split_word};
use std::alloc::Global;

fn nothing(text: &[u8]) -> bool
    ensures { result ≡ no_word text.now }
{
    let (word, _) = split_word(text);
    word.is_empty()
}

// The numbers of a text of so many, and of nothing else.
fn numbers<const N: usize>(text: &[u8]) -> Option<[u32; N]>
    ensures { result ≡ numbers_of N text.now }
{
    let mut numbers = [0; N];
    let mut rest = text;
    for n in &mut numbers {
        let (word, after) = split_word(rest);
        *n = number(word)?;
        rest = after;
    }
    nothing(rest).then_some(numbers)
}

// A number that may be left out.
fn number_or(default: u32, text: &[u8]) -> Option<u32>
    ensures { result ≡ number_or default text.now }
{
    if nothing(text) {
        return Some(default);
    }
    let [n] = numbers::<1>(text)?;
    Some(n)
}

fn once(call: Call) -> Calls
    ensures { result ≡ once_call call }
{
    Calls { call, times: 1 }
}

fn slot(times: u32) -> Option<Calls>
    ensures { result ≡ slots times }
{
    let times = u16::try_from(times).ok()?;
    Some(Calls {
        call: Call::Slot,
        times,
    })
}

// The call of this name, with what follows the name.
#[tactic(auto, unfolding(crate::specs::Lines::call_of))]
fn call(name: &[u8], rest: &[u8]) -> Option<Calls>
    ensures { result ≡ call_of name.now rest.now }
{
    // By ==: in the arm of a match a proof has a name only byte by byte.
    if name == b"cut".as_slice() {
        let [node, port] = numbers::<2>(rest)?;
        Some(once(Call::Cut { node, port }))
    } else if name == b"hand".as_slice() {
        let [node] = numbers::<1>(rest)?;
        Some(once(Call::Hand { node }))
    } else if name == b"slot".as_slice() {
        number_or(1, rest).and_then(slot)
    } else if name == b"post".as_slice() {
        let [source, destination, word] = numbers::<3>(rest)?;
        Some(once(Call::Post {
            source,
            destination,
            word,
        }))
    } else if name == b"step".as_slice() {
        number_or(256, rest).map(|free| once(Call::Step { free }))
    } else {
        None
    }
}

// The question of this name, with what follows the name.
#[tactic(auto, unfolding(crate::specs::Lines::question_of))]
fn question(name: &[u8], rest: &[u8]) -> Option<Question>
    ensures { result ≡ question_of name.now rest.now }
{
    // By ==: in the arm of a match a proof has a name only byte by byte.
    if name == b"mode".as_slice() {
        let [node] = numbers::<1>(rest)?;
        Some(Question::Mode { node })
    } else if name == b"entry".as_slice() {
        let [node, destination] = numbers::<2>(rest)?;
        Some(Question::Entry { node, destination })
    } else if name == b"marks".as_slice() {
        let [node] = numbers::<1>(rest)?;
        Some(Question::Marks { node })
    } else if name == b"hands".as_slice() {
        nothing(rest).then_some(Question::Hands)
    } else if name == b"calm".as_slice() {
        nothing(rest).then_some(Question::Calm)
    } else if name == b"flight".as_slice() {
        nothing(rest).then_some(Question::Flight)
    } else {
        None
    }
}

fn cables(heap: Global, rest: &[u8]) -> Result<Line, Trouble>
    ensures { Says (option_map cables (cables_of rest.now)) result }
{
    let (word, after) = split_word(rest);
    if !nothing(after) {
        return Err(Trouble::CannotRead);
    }
    Ok(Line::Cables(hex_bytes(heap, word)?))
}

fn picker(rest: &[u8]) -> Option<Picker>
    ensures { result ≡ picker_of rest.now }
{
    let (word, after) = split_word(rest);
    if !nothing(after) {
        return None;
    }
    // By ==: in the arm of a match a proof has a name only byte by byte.
    if word == b"lowest".as_slice() {
        Some(Picker::Lowest)
    } else if word == b"round".as_slice() {
        Some(Picker::Round)
    } else {
        None
    }
}

// The line of this name, with what follows the name.
#[tactic(auto, unfolding(crate::specs::Lines::named_meaning))]
fn named(heap: Global, name: &[u8], rest: &[u8]) -> Result<Line, Trouble>
    ensures { Says (named_meaning name.now rest.now) result }
{
    // By ==: in the arm of a match a proof has a name only byte by byte.
    if name == b"mesh".as_slice() {
        let [columns, rows] = numbers::<2>(rest).ok_or(Trouble::CannotRead)?;
        Ok(Line::Mesh { columns, rows })
    } else if name == b"cables".as_slice() {
        cables(heap, rest)
    } else if name == b"chooser".as_slice() {
        let picker = picker(rest).ok_or(Trouble::CannotRead)?;
        Ok(Line::Chooser(picker))
    } else if let Some(calls) = call(name, rest) {
        Ok(Line::Make(calls))
    } else {
        let question = question(name, rest).ok_or(Trouble::CannotRead)?;
        Ok(Line::Ask(question))
    }
}

/// What a line says, without the line feed that ends it.
///
/// `cut 0 1`, `slot 4` and `post 0 3 9  # a word` are lines of calls, `mode 0` asks, `mesh 2 2` gives
/// a wiring, and a line of blanks or a comment says nothing.
pub fn read_line(heap: Global, line: &[u8]) -> Result<Line, Trouble>
    ensures { Says (meaning_of line.now) result }
{
    let code = code(line);
    let (name, rest) = split_word(code);
    if name.is_empty() {
        return Ok(Line::Blank);
    }
    named(heap, name, rest)
}
