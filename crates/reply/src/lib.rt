//! What a wall answers, as text. specs/Text.antt has every line.
#![tactic(auto)]

pub mod lines;
pub mod text;
pub mod types;

pub use lines::{answer_line, cables_line, call_lines, flight_line, hands_line, mesh_line};
pub use types::{Answer, OrRefused, Reply, TurnedDown, Wired};
