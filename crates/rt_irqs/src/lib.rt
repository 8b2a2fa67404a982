//! The interrupt lines of the real-time side: which hard lines modules hold, with their handlers and marks, and which soft
//! lines are taken.
//!
//! A line that a module holds and that was acknowledged is marked until its handler starts. Results of calls are 0 or above, or
//! the negative of an error number of Linux.
#![tactic(auto)]

mod irqs;

pub use irqs::Irqs;
