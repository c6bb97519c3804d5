//! Scripts of calls on a wall: reading a line, and the text of calls and questions. specs/ says what
//! each line means and what is printed.
#![tactic(auto)]

pub mod line;
mod numbers;
mod read;
pub mod show;
pub mod trouble;
mod words;
pub mod worked;

pub use line::{Call, Calls, Line, Picker, Question};
pub use numbers::as_byte;
pub use read::read_line;
pub use trouble::Trouble;
pub use worked::worked_lines_hold;
