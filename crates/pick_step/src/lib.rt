//! The third step of a tick: what is on the processor.
#![tactic(auto)]

mod pick;
mod start;

pub use pick::pick_next;
