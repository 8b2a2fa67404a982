//! The first step of a tick: the devices.
#![tactic(auto)]

mod board_step;
mod laws;

pub use board_step::devices;
pub use laws::asks_when_due;
