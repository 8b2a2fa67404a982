//! The fourth step of a tick where an init, a handler or a thread is on: its unit.
#![tactic(auto)]

mod ended;
mod gates;
mod performed;
mod plans;
mod stays;
mod unit;

pub use plans::next_dues;
pub use unit::activity_unit;
