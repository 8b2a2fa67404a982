//! Sets of interrupt lines as words: line n is in a set where bit n of the word is 1.
//!
//! The 8259A has sets of eight lines in its registers, both chips together have sixteen, and the guest has 32, of which
//! 16 to 31 are soft. The lemmas on these sets are in `proofs/LineSetLemmas.antt`.
#![tactic(auto)]

mod eight;
mod sixteen;
mod thirty_two;

pub use eight::{lowest8, minus8, with_line8, without_line8};
pub use sixteen::{has_line16, lowest16, minus16, with_line16, without_line16};
pub use thirty_two::{has_line32, lowest32, minus32, with_line32, without_line32};
