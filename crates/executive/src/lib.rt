//! The executive: threads, their ready list and dues, the FIFOs and the interrupt lines together, and when these agree.
#![tactic(auto)]

mod executive;

pub use executive::Executive;
