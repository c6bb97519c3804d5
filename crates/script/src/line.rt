//! What a line of a script says. Numbers stand as they are written, whether or not a wall has such a
//! node or port.

/// A call on a wall.
#[derive(Clone, Copy, PartialEq, Eq, Debug)]
pub enum Call {
    /// Cuts the cable at a node's port.
    Cut {
        node: u32,
        port: u32,
    },
    /// Raises a node's hand.
    Hand {
        node: u32,
    },
    /// The next owner's slot.
    Slot,
    /// Posts a word from one node to another.
    Post {
        source: u32,
        destination: u32,
        word: u32,
    },
    /// Steps the packets, with a tray of so many free places.
    Step {
        free: u32,
    },
}

/// A call that is made a number of times.
#[derive(Clone, Copy, PartialEq, Eq, Debug)]
pub struct Calls {
    pub call: Call,
    pub times: u16,
}

/// A question to a wall.
#[derive(Clone, Copy, PartialEq, Eq, Debug)]
pub enum Question {
    /// What a node is doing.
    Mode { node: u32 },
    /// A node's entry for a destination.
    Entry { node: u32, destination: u32 },
    /// The marks of a node's ports.
    Marks { node: u32 },
    /// The nodes whose hands are up.
    Hands,
    /// Whether the wall is calm.
    Calm,
    /// The packets in flight.
    Flight,
}

/// Which chooser a wall has.
#[derive(Clone, Copy, PartialEq, Eq, Debug)]
pub enum Picker {
    /// The one that takes the lowest port.
    Lowest,
    /// The one that goes round.
    Round,
}

/// A line of a script.
#[derive(Drop)]
pub enum Line {
    /// Nothing, or a comment.
    Blank,
    /// A wiring: a mesh of so many columns and rows.
    Mesh { columns: u32, rows: u32 },
    /// A wiring: the bytes of a wall file.
    Cables(Vec<u8>),
    /// The wall's chooser.
    Chooser(Picker),
    /// A call, once or several times.
    Make(Calls),
    /// A question.
    Ask(Question),
}
