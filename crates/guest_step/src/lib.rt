//! The fourth step of a tick where the guest is on: its unit.
#![tactic(auto)]

mod calls;
mod entries;
mod gates;
mod kinds;
mod timer;
mod unit;

pub use unit::guest_unit;
