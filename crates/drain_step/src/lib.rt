//! The second step of a tick: the drain of the interrupt controllers, with the releases of threads and the guest's timer.
#![tactic(auto)]

mod step;
mod timer;

pub use step::drain;
