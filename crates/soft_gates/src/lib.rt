//! The guest's soft gates: its cli, sti, iret, pushf, popf and hlt on the software flag, and its calls of the executive.
#![tactic(auto)]

mod calls;
mod gates;
mod service;

pub use calls::{Call, GetCall, PutCall, reply};
pub use gates::{GateUnit, gate};
