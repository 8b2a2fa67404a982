//! The text of one line: what is appended to it, where it is cut, and the numbers that are read back.
#![tactic(auto)]

mod cutting;
mod fitting;
mod line;
mod numbers;

pub use cutting::cut;
pub use fitting::{add, add_decimal};
pub use line::LineText;
pub use numbers::{are_digits, read_decimal, read_hex};
