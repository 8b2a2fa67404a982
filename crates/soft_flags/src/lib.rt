//! The guest's soft side of interrupts: the flag, the shadow behind a set flag, the mask of lines, and the descriptor
//! table.
#![tactic(auto)]

mod flags;

pub use flags::SoftFlags;
