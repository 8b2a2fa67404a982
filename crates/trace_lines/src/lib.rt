//! The lines of a run: their texts, and the room for those of one tick.
#![tactic(auto)]

mod pieces;
mod read;
mod tick_lines;
mod words;
mod write;

pub use line_kinds::{BreachKind, FaultKind, GLine, HLine, Line, Mode, RLine, Said, Who};
pub use read::read_line;
pub use tick_lines::Lines;
pub use write::{write_g, write_h, write_r};
