//! What is said of a fault, in plain words. specs/Words.antt has every text.
ghost use Rattle.std.specs.Prelude.{◌≡◌, Some};
ghost use Rattle.fault.specs.Words.{layer_words, problem_words, header_words, fault_words, fault_text};

use crate::{CableProblem, HeaderFault, Layer, WallFault};
use std::fmt;

impl Layer {
    /// The layer's name.
    pub fn words(self) -> &'static str
        ensures { result.now ≡ layer_words self }
    {
        match self {
            Layer::InHeader => "header",
            Layer::InCable => "cable",
            Layer::InWall => "wall",
        }
    }
}

impl CableProblem {
    pub(crate) fn words(self) -> &'static str
        ensures { result.now ≡ problem_words self }
    {
        match self {
            CableProblem::NoSuchNode => "a cable's node is not below the node count",
            CableProblem::NoSuchPort => "a cable's port is above 3",
            CableProblem::OneNode => "a cable has both ends on one node",
            CableProblem::PortTaken => "a cable's port is already taken",
        }
    }
}

impl HeaderFault {
    pub(crate) fn words(self) -> &'static str
        ensures { result.now ≡ header_words self }
    {
        match self {
            HeaderFault::Short(_) => "the file ends before its header does",
            HeaderFault::Mark(_) => "the file does not begin with the mark TWL",
            HeaderFault::Version => "the version is not 1",
            HeaderFault::NodeCount => "the node count is not 1 to 64",
            HeaderFault::CableCount => "the cable count is above 128",
            HeaderFault::Length => "the length does not fit the cable count",
            HeaderFault::Cable(fault) => fault.problem.words(),
        }
    }
}

impl WallFault {
    /// What is wrong, without the number and the place.
    pub fn words(self) -> &'static str
        ensures { result.now ≡ fault_words self }
    {
        match self {
            WallFault::MeshSide => "a side of the mesh is not 1 to 8",
            WallFault::Header(fault) => fault.words(),
        }
    }
}

impl fmt::Display for Layer {
    ghost output = { λ l. Some (layer_words l) };

    fn fmt<W: fmt::Write>(&self, f: &mut fmt::Formatter<W>) -> fmt::Result {
        let words = self.words();
        write!(f, "{words}")
    }
}

impl fmt::Display for CableProblem {
    ghost output = { λ p. Some (problem_words p) };

    fn fmt<W: fmt::Write>(&self, f: &mut fmt::Formatter<W>) -> fmt::Result {
        let words = self.words();
        write!(f, "{words}")
    }
}

impl fmt::Display for HeaderFault {
    ghost output = { λ h. Some (header_words h) };

    fn fmt<W: fmt::Write>(&self, f: &mut fmt::Formatter<W>) -> fmt::Result {
        let words = self.words();
        write!(f, "{words}")
    }
}

/// What is wrong, and then the number, layer, index and place.
impl fmt::Display for WallFault {
    ghost output = { λ f. Some (fault_text f) };

    fn fmt<W: fmt::Write>(&self, f: &mut fmt::Formatter<W>) -> fmt::Result {
        let words = self.words();
        let number = self.number();
        let layer = self.layer().words();
        let index = self.index();
        let place = self.place();
        write!(
            f,
            "{words} (number {number}, layer {layer}, index {index}, place {place})"
        )
    }
}
