//! The answers of a wall to calls and to questions, and what became of a wiring. A refused one is an
//! `Err` beside them.
ghost use Rattle.std.specs.Prelude.{◌≡◌, ◌++◌, codes, decimal};
ghost use Rattle.fault.specs.Fault.{fault_number};
ghost use Rattle.reply.specs.Text.{by_number, at_place, fault_text, turned_down_text};

use chooser::PortSet;
use fault::WallFault;
use rules::{Mark, Mode, Refusal, SlotAnswer, StepCounts};

/// What a wall answers to a call.
#[derive(Clone, Copy)]
pub enum Reply {
    /// The call has no answer of its own, and was accepted.
    Done,
    /// What happened in a slot.
    Slotted(SlotAnswer),
    /// The number of a packet that was posted.
    Numbered(u32),
    /// What a step did.
    Stepped(StepCounts),
}

/// What a wall answers to a question about one node, or about itself.
#[derive(Clone, Copy)]
pub enum Answer {
    /// What a node is doing.
    Mode(Mode),
    /// A node's entry: its ports and its count.
    Entry(Option<(PortSet, u8)>),
    /// The marks of a node's ports 0 to 3.
    Marks([Mark; 4]),
    /// Whether the wall is calm.
    Calm(bool),
}

/// A reply or an answer, or why it was refused, as text.
#[derive(Clone, Copy)]
pub struct OrRefused<T>(pub Result<T, Refusal>);

/// Why there is no wiring: the number of its fault and, of a wall file, the byte at fault.
#[derive(Clone, Copy)]
pub struct TurnedDown {
    pub number: u8,
    pub place: Option<u16>,
}

impl TurnedDown {
    /// A fault by its number alone, as a mesh has it.
    pub fn by_number(fault: WallFault) -> TurnedDown
        ensures value { result ≡ by_number fault }
        ensures text { turned_down_text result ≡ codes "refused " ++ decimal (fault_number fault) }
    {
        TurnedDown {
            number: fault.number(),
            place: None,
        }
    }

    /// A fault by its number and the byte at fault, as a wall file has it.
    pub fn at_place(fault: WallFault) -> TurnedDown
        ensures value { result ≡ at_place fault }
        ensures text { turned_down_text result ≡ codes "refused " ++ fault_text fault }
    {
        TurnedDown {
            number: fault.number(),
            place: Some(fault.place()),
        }
    }
}

/// What became of a wiring, as text: how many nodes it has, or why there is none.
#[derive(Clone, Copy)]
pub struct Wired(pub Result<u8, TurnedDown>);
