//! A run whose lines are written as they come: each tick of the machine, and then its lines.
#![tactic(auto)]

mod stream;
mod write;

pub use stream::{Finished, RunFault, boot, has_breach_by, has_fault_by, run_streaming};
pub use write::{Printed, has_none};
