//! The plain types of a wall, and its rules as definitions (specs/): what each call answers and
//! what it leaves behind, what a run of calls is, and what every run promises.
#![tactic(auto)]

ghost use Rattle.std.specs.Prelude.{◌≡◌, not, Decides};
ghost use Rattle.rules.specs.Calls.{not_serving};
ghost use Rattle.rules.specs.Flood.{is_up, is_down, is_marked};
ghost use Rattle.rules.specs.Modes.{root_in};
ghost use Rattle.rules.specs.Numbers.{act_number, ending_number, refusal_number, mode_letter, mark_letter};
ghost use Rattle.rules.specs.Promise.{Recovers};
ghost use Rattle.rules.specs.Slot.{ends_recovery};

pub mod theorems;

/// How a node's port is marked by the last root's broadcast: towards the root (up), away from
/// it (down), or not at all.
#[derive(Clone, Copy, PartialEq, Eq, Debug)]
pub enum Mark {
    Unmarked,
    Up,
    Down,
}

impl Mark {
    /// Whether the port leads towards the root.
    pub fn is_up(self) -> bool
        ensures { result ≡ is_up self }
    {
        self == Mark::Up
    }

    /// Whether the port leads away from the root.
    pub fn is_down(self) -> bool
        ensures { result ≡ is_down self }
    {
        self == Mark::Down
    }

    /// Whether the port is marked at all.
    pub fn is_marked(self) -> bool
        ensures { result ≡ is_marked self }
    {
        self != Mark::Unmarked
    }

    /// The letter that a page has for it: `-`, `u` or `d`.
    // One byte of a page, so no Display.
    pub fn letter(self) -> u8
        ensures { result ≡ mark_letter self }
    {
        match self {
            Mark::Unmarked => b'-',
            Mark::Up => b'u',
            Mark::Down => b'd',
        }
    }
}

/// What a node is doing. `left` counts the slots left until it serves.
#[derive(Clone, Copy, PartialEq, Eq, Debug)]
pub enum Mode {
    New,
    Recovering { root: u8, left: u8 },
    Serving { root: u8 },
}

impl Mode {
    /// Whether it is in a recovery.
    pub fn recovers(self) -> bool
        ensures { Decides result (Recovers self) }
    {
        matches!(self, Mode::Recovering { .. })
    }

    /// Whether it serves.
    pub fn serves(self) -> bool
        ensures { result ≡ not (not_serving self) }
    {
        matches!(self, Mode::Serving { .. })
    }

    /// Whether it serves from the end of this slot on, and did not before.
    #[tactic(auto, unfolding(crate::specs::Slot::ends_recovery))]
    pub fn ends_recovery(self) -> bool
        ensures { result ≡ ends_recovery self }
    {
        matches!(self, Mode::Recovering { left: 0 | 1, .. })
    }

    /// The root that it recovers under or serves under; none when it is new.
    pub fn root(self) -> Option<u8>
        ensures { result ≡ root_in self }
    {
        match self {
            Mode::New => None,
            Mode::Recovering { root, .. } | Mode::Serving { root } => Some(root),
        }
    }

    /// The letter that a page has for it: `N`, `R` or `S`.
    // One byte of a page, so no Display.
    pub fn letter(self) -> u8
        ensures { result ≡ mode_letter self }
    {
        match self {
            Mode::New => b'N',
            Mode::Recovering { .. } => b'R',
            Mode::Serving { .. } => b'S',
        }
    }
}

/// A packet in flight. It stands at its node: at home, or at the port that it came in by.
#[derive(Clone, Copy, PartialEq, Eq, Debug)]
pub struct Packet {
    pub number: u32,
    pub source: u8,
    pub destination: u8,
    pub word: u32,
    pub node: u8,
    pub standing: Option<u8>,
}

/// What the owner of a slot does in it.
#[derive(Clone, Copy, PartialEq, Eq, Debug)]
pub enum Act {
    Silent = 0,
    Root = 1,
    Member = 2,
}

impl Act {
    /// Its number in a slot's answer.
    pub fn number(self) -> u8
        ensures { result ≡ act_number self }
    {
        self as u8
    }
}

/// The answer of a slot: its owner, what it did, and the cycles that reached a node.
#[derive(Clone, Copy, PartialEq, Eq, Debug)]
pub struct SlotAnswer {
    pub owner: u8,
    pub act: Act,
    pub cycles: u8,
}

/// How a packet's flight ended.
#[derive(Clone, Copy, PartialEq, Eq, Debug)]
pub enum Ending {
    Delivered = 1,
    Returned = 2,
}

impl Ending {
    /// Its number in an outcome.
    pub fn number(self) -> u8
        ensures { result ≡ ending_number self }
    {
        self as u8
    }
}

/// What a step puts into the tray for a packet that leaves the wall.
#[derive(Clone, Copy, PartialEq, Eq, Debug)]
pub struct Outcome {
    pub number: u32,
    pub ending: Ending,
    pub node: u8,
    pub word: u32,
}

/// The answer of a step: they add up to the packets in flight before it.
#[derive(Clone, Copy, PartialEq, Eq, Default, Debug)]
pub struct StepCounts {
    pub moved: u16,
    pub delivered: u16,
    pub returned: u16,
    pub waited: u16,
}

/// Why a wall turned a call down.
#[derive(Clone, Copy, PartialEq, Eq, Debug)]
pub enum Refusal {
    NodeOutOfRange = 12,
    PortOutOfRange = 13,
    SameNode = 14,
    TrayTooSmall = 15,
    NoCable = 16,
    AlreadyCut = 17,
    SourceNotServing = 18,
    NoEntry = 19,
    WallFull = 20,
    NumbersUsedUp = 21,
}

impl Refusal {
    /// The number by which the refusal is known: 12 to 15 for the input's, 16 to 21 for the state's.
    pub fn number(self) -> u8
        ensures { result ≡ refusal_number self }
    {
        self as u8
    }
}
