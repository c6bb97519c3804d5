//! The text of each answer.
ghost use Rattle.std.specs.Prelude.{Some, decimal};
ghost use Rattle.reply.specs.Text.{ending_word, mark_text, reply_text, refusal_text, or_refused_text, port_digit, ports_text, marks_text, answer_text, turned_down_text, wired_text};

use crate::types::{Answer, OrRefused, Reply, TurnedDown, Wired};
use chooser::PortSet;
use rules::{Ending, Mark, Mode, Refusal, SlotAnswer, StepCounts};
use std::fmt;

// A mark is of another crate, so its text needs a type of this one.
#[derive(Clone, Copy)]
struct MarkLetter(Mark);

impl fmt::Display for MarkLetter {
    ghost output = { λ x. Some (mark_text x.0) };

    fn fmt<W: fmt::Write>(&self, f: &mut fmt::Formatter<W>) -> fmt::Result {
        match self.0 {
            Mark::Unmarked => write!(f, "-"),
            Mark::Up => write!(f, "u"),
            Mark::Down => write!(f, "d"),
        }
    }
}

// An ending is of another crate, so its text needs a type of this one.
#[derive(Clone, Copy)]
pub(crate) struct EndingWord(pub(crate) Ending);

impl fmt::Display for EndingWord {
    ghost output = { λ x. Some (ending_word x.0) };

    fn fmt<W: fmt::Write>(&self, f: &mut fmt::Formatter<W>) -> fmt::Result {
        match self.0 {
            Ending::Delivered => write!(f, "delivered"),
            Ending::Returned => write!(f, "returned"),
        }
    }
}

// A refusal is of another crate, so its text needs a type of this one.
#[derive(Clone, Copy)]
struct RefusalText(Refusal);

impl fmt::Display for RefusalText {
    ghost output = { λ x. Some (refusal_text x.0) };

    fn fmt<W: fmt::Write>(&self, f: &mut fmt::Formatter<W>) -> fmt::Result {
        write!(f, "refused {}", self.0.number())
    }
}

impl<T: fmt::Display> fmt::Display for OrRefused<T> {
    ghost output = { λ x. or_refused_text T.output x.0 };

    fn fmt<W: fmt::Write>(&self, f: &mut fmt::Formatter<W>) -> fmt::Result {
        match &self.0 {
            Ok(told) => write!(f, "{told}"),
            Err(refusal) => write!(f, "{}", RefusalText(*refusal)),
        }
    }
}

impl fmt::Display for Reply {
    ghost output = { λ x. Some (reply_text x) };

    fn fmt<W: fmt::Write>(&self, f: &mut fmt::Formatter<W>) -> fmt::Result {
        match *self {
            Reply::Done => write!(f, "ok"),
            Reply::Slotted(SlotAnswer { owner, act, cycles }) => {
                write!(f, "owner {owner} act {} cycles {cycles}", act.number())
            }
            Reply::Numbered(number) => write!(f, "packet {number}"),
            Reply::Stepped(
                StepCounts {
                    moved,
                    delivered,
                    returned,
                    waited,
                },
            ) => write!(
                f,
                "moved {moved} delivered {delivered} returned {returned} waited {waited}"
            ),
        }
    }
}

// The digit of one port, where a set has it.
#[derive(Clone, Copy)]
struct PortDigit {
    ports: PortSet,
    port: u8,
}

impl fmt::Display for PortDigit {
    ghost output = { λ x. Some (port_digit x.ports x.port (decimal x.port)) };

    fn fmt<W: fmt::Write>(&self, f: &mut fmt::Formatter<W>) -> fmt::Result {
        if self.ports.contains(self.port) {
            write!(f, "{}", self.port)
        } else {
            Ok(())
        }
    }
}

// A set of ports is of another crate, so its text needs a type of this one.
#[derive(Clone, Copy)]
struct PortsText(PortSet);

impl fmt::Display for PortsText {
    ghost output = { λ x. Some (ports_text x.0) };

    fn fmt<W: fmt::Write>(&self, f: &mut fmt::Formatter<W>) -> fmt::Result {
        for port in 0..4 {
            let ports = self.0;
            write!(f, "{}", PortDigit { ports, port })?;
        }
        Ok(())
    }
}

// An array's text needs a type of this crate.
#[derive(Clone, Copy)]
struct MarksText([Mark; 4]);

impl fmt::Display for MarksText {
    ghost output = { λ x. Some (marks_text x.0) };

    fn fmt<W: fmt::Write>(&self, f: &mut fmt::Formatter<W>) -> fmt::Result {
        for mark in self.0 {
            write!(f, "{}", MarkLetter(mark))?;
        }
        Ok(())
    }
}

impl fmt::Display for Answer {
    ghost output = { λ x. Some (answer_text x) };

    fn fmt<W: fmt::Write>(&self, f: &mut fmt::Formatter<W>) -> fmt::Result {
        match *self {
            Answer::Mode(Mode::New) => write!(f, "new"),
            Answer::Mode(Mode::Recovering { root, left }) => {
                write!(f, "recovering root {root} left {left}")
            }
            Answer::Mode(Mode::Serving { root }) => write!(f, "serving root {root}"),
            Answer::Entry(None) => write!(f, "none"),
            Answer::Entry(Some((ports, count))) => {
                let ports = PortsText(ports);
                write!(f, "ports {ports} hops {count}")
            }
            Answer::Marks(marks) => {
                let marks = MarksText(marks);
                write!(f, "{marks}")
            }
            Answer::Calm(true) => write!(f, "yes"),
            Answer::Calm(false) => write!(f, "no"),
        }
    }
}

impl fmt::Display for TurnedDown {
    ghost output = { λ x. Some (turned_down_text x) };

    fn fmt<W: fmt::Write>(&self, f: &mut fmt::Formatter<W>) -> fmt::Result {
        let number = self.number;
        match self.place {
            None => write!(f, "refused {number}"),
            Some(place) => write!(f, "refused {number} at {place}"),
        }
    }
}

impl fmt::Display for Wired {
    ghost output = { λ x. Some (wired_text x.0) };

    fn fmt<W: fmt::Write>(&self, f: &mut fmt::Formatter<W>) -> fmt::Result {
        match self.0 {
            Ok(nodes) => write!(f, "{nodes} nodes"),
            Err(why) => write!(f, "{why}"),
        }
    }
}
