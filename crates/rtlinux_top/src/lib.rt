//! The top call: all that the program does, over a store of files and a sink of bytes.
#![tactic(auto)]

mod answer;
mod last;
mod laws;
mod memory;
mod request;
mod run;
mod status;

pub use answer::rtlinux;
pub use last::Last;
pub use laws::shows_solution;
pub use status::{Code, Device, Status};
