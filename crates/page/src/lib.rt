//! The page of a node: a line with its number, mode, root and marks, and a line for each entry of its table. A page
//! goes into a byte tray, whole or not at all; `pages` makes what is printed of a wall file.
//! pagetext/specs/Text.antt has every text.
#![tactic(auto)]

mod file;
mod lines;
mod node_page;
mod numbers;
mod powered;
mod sheet;
mod types;
mod wall_pages;

pub use file::page_of_file;
pub use node_page::{PAGE_MAX, page};
pub use powered::settled;
pub use types::PageFault;
pub use wall_pages::{WALL_MAX, pages};
