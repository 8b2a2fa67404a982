//! The string instructions of the i386, one iteration at a time, over any bus.
#![tactic(auto)]

mod iteration;

pub use iteration::{Iteration, iterate};
