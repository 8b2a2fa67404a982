//! The kinds of lines that a run prints, and the bytes that lines show.
#![tactic(auto)]

mod kinds;
mod said;

pub use kinds::{BreachKind, FaultKind, GLine, HLine, Line, Mode, RLine, Who};
pub use said::Said;
