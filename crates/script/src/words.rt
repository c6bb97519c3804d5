//! The words of a line. specs/Words.antt says where they begin and end.
ghost use Rattle.std.specs.Prelude.{◌≡◌, not, ◌==◌};
ghost use Rattle.std.specs.List.{prefix_len};
ghost use Rattle.script.specs.Words.{is_blank, code_of, first_word, past_word};

fn is_blank(b: u8) -> bool
    ensures { result ≡ is_blank b }
{
    b == b' ' || b == b'\t' || b == b'\r'
}

// Three chains of one line each; a function over a closure would need its clause.

// How many bytes stand before a comment.
fn code_len(line: &[u8]) -> usize
    ensures { result ≡ prefix_len (λ b. not (b == 35)) line.now }
{
    line.iter().take_while(|b| **b != b'#').count()
}

// How many blanks stand in front.
fn blanks(text: &[u8]) -> usize
    ensures { result ≡ prefix_len is_blank text.now }
{
    text.iter().take_while(|b| is_blank(**b)).count()
}

// How many bytes stand before a blank.
fn word_len(text: &[u8]) -> usize
    ensures { result ≡ prefix_len (λ b. not (is_blank b)) text.now }
{
    text.iter().take_while(|b| !is_blank(**b)).count()
}

/// A line less its comment.
#[tactic(auto, using(crate::proofs::Runs::runs), unfolding(crate::specs::Words::code_of))]
pub fn code(line: &[u8]) -> &[u8]
    ensures { result.now ≡ code_of line.now }
{
    &line[..code_len(line)]
}

/// The first word of a text, nothing where it has none, and what follows that.
#[tactic(auto, using(crate::proofs::Runs::runs), unfolding(crate::specs::Words::first_word, crate::specs::Words::past_word))]
pub fn split_word(text: &[u8]) -> (&[u8], &[u8])
    ensures word { result.0.now ≡ first_word text.now }
    ensures rest { result.1.now ≡ past_word text.now }
{
    let (_, dark) = text.split_at(blanks(text));
    dark.split_at(word_len(dark))
}
