//! What can be wrong with a wall file or a mesh. A fault of a cable is carried whole in the
//! header's fault, and that in the wall's, so the number, layer, index and place of a refusal are
//! the same wherever it is met. specs/Fault.antt says them for every fault.
#![tactic(auto)]

ghost use Rattle.std.specs.Prelude.{◌≡◌};
ghost use Rattle.fault.specs.declared.HeaderFault.TheVariants.{Cable};
ghost use Rattle.fault.specs.declared.WallFault.TheVariants.{Header};
ghost use Rattle.fault.specs.Fault.{fault_number, fault_layer, fault_index, fault_place};

pub mod words;

/// The layer that a fault was found in.
#[derive(Clone, Copy, PartialEq, Eq, Debug)]
pub enum Layer {
    /// The first seven bytes of a wall file, or its length.
    InHeader,
    /// One of the cables of a wall file.
    InCable,
    /// The wall itself.
    InWall,
}

/// What can be wrong with a cable of a wall file. As a number, each is its refusal's.
#[derive(Clone, Copy, PartialEq, Eq, Debug)]
pub enum CableProblem {
    /// The node's number is not below the node count.
    NoSuchNode = 7,
    /// The port's number is above 3.
    NoSuchPort = 8,
    /// Both ends are on one node.
    OneNode = 9,
    /// An earlier cable is at this port.
    PortTaken = 10,
}

/// A cable of a wall file that is refused.
#[derive(Clone, Copy, PartialEq, Eq, Debug)]
pub struct CableFault {
    /// What is wrong with it.
    pub problem: CableProblem,
    /// Which cable of the file it is, counted from 0.
    pub index: u8,
    /// The byte of the file that is at fault, counted from 0.
    pub place: u16,
}

/// A wall file that is refused.
#[derive(Clone, Copy, PartialEq, Eq, Debug)]
pub enum HeaderFault {
    /// The file has so many bytes, and a header has seven.
    Short(u8),
    /// This byte of the mark is not that of `TWL`.
    Mark(u8),
    /// The version is not 1.
    Version,
    /// The node count is 0 or above 64.
    NodeCount,
    /// The cable count is above 128.
    CableCount,
    /// The length is not that of a header and its cables.
    Length,
    /// One of the cables is refused.
    Cable(CableFault),
}

impl From<CableFault> for HeaderFault {
    ghost from_gives = { λ e r. r ≡ Cable e };

    fn from(cable: CableFault) -> HeaderFault {
        HeaderFault::Cable(cable)
    }
}

/// A wall that is refused because of how it is described: a mesh with a bad side, or a wall file
/// with a fault.
#[derive(Clone, Copy, PartialEq, Eq, Debug)]
pub enum WallFault {
    /// A side of a mesh is outside 1 to 8.
    MeshSide,
    /// The wall file is refused.
    Header(HeaderFault),
}

impl WallFault {
    /// The refusal's number.
    pub fn number(self) -> u8
        ensures { result ≡ fault_number self }
    {
        match self {
            WallFault::Header(HeaderFault::Short(_)) => 1,
            WallFault::Header(HeaderFault::Mark(_)) => 2,
            WallFault::Header(HeaderFault::Version) => 3,
            WallFault::Header(HeaderFault::NodeCount) => 4,
            WallFault::Header(HeaderFault::CableCount) => 5,
            WallFault::Header(HeaderFault::Length) => 6,
            WallFault::Header(HeaderFault::Cable(fault)) => fault.problem as u8,
            WallFault::MeshSide => 11,
        }
    }

    /// The layer that found it.
    pub fn layer(self) -> Layer
        ensures { result ≡ fault_layer self }
    {
        match self {
            WallFault::Header(HeaderFault::Cable(_)) => Layer::InCable,
            WallFault::Header(_) => Layer::InHeader,
            WallFault::MeshSide => Layer::InWall,
        }
    }

    /// The cable at fault, counted from 0; 0 where no cable is.
    pub fn index(self) -> u8
        ensures { result ≡ fault_index self }
    {
        match self {
            WallFault::Header(HeaderFault::Cable(fault)) => fault.index,
            _ => 0,
        }
    }

    /// The byte at fault, counted from 0; 0 where no file is.
    pub fn place(self) -> u16
        ensures { result ≡ fault_place self }
    {
        match self {
            WallFault::Header(HeaderFault::Short(length)) => u16::from(length),
            WallFault::Header(HeaderFault::Mark(at)) => u16::from(at),
            WallFault::Header(HeaderFault::Version) => 3,
            WallFault::Header(HeaderFault::NodeCount) => 5,
            WallFault::Header(HeaderFault::CableCount | HeaderFault::Length) => 6,
            WallFault::Header(HeaderFault::Cable(fault)) => fault.place,
            WallFault::MeshSide => 0,
        }
    }
}

impl From<HeaderFault> for WallFault {
    ghost from_gives = { λ e r. r ≡ Header e };

    fn from(header: HeaderFault) -> WallFault {
        WallFault::Header(header)
    }
}
