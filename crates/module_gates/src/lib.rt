//! The gates of real-time activities, INT F8h, over the executive: from the registers to the registers. And what a fault of an activity
//! leaves, or the return of a thread.
#![tactic(auto)]

mod alone;
mod caller;
mod drop;
mod effect;
mod family;
mod fifos;
mod gates;
mod lines;
mod ranges;
mod rows;
mod threads;

pub use caller::Caller;
pub use drop::drop_caller;
pub use effect::{Effect, ModuleUnit};
pub use executive::Executive;
pub use fifos::take_out;
pub use gates::gate;
