//! Calls and questions as text. specs/Shown.antt says how each is written.
ghost use Rattle.std.specs.Prelude.{Some};
ghost use Rattle.script.specs.Shown.{call_text, question_text};

use crate::line::{Call, Question};
use std::fmt;

impl fmt::Display for Call {
    ghost output = { λ x. Some (call_text x) };

    fn fmt<W: fmt::Write>(&self, f: &mut fmt::Formatter<W>) -> fmt::Result {
        match *self {
            Call::Cut { node, port } => write!(f, "cut {node} {port}"),
            Call::Hand { node } => write!(f, "hand {node}"),
            Call::Slot => write!(f, "slot"),
            Call::Post {
                source,
                destination,
                word,
            } => write!(f, "post {source} {destination} {word}"),
            Call::Step { .. } => write!(f, "step"),
        }
    }
}

impl fmt::Display for Question {
    ghost output = { λ x. Some (question_text x) };

    fn fmt<W: fmt::Write>(&self, f: &mut fmt::Formatter<W>) -> fmt::Result {
        match *self {
            Question::Mode { node } => write!(f, "mode {node}"),
            Question::Entry { node, destination } => write!(f, "entry {node} {destination}"),
            Question::Marks { node } => write!(f, "marks {node}"),
            Question::Hands => write!(f, "hands"),
            Question::Calm => write!(f, "calm"),
            Question::Flight => write!(f, "flight"),
        }
    }
}
