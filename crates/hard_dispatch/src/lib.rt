//! The dispatch of hard interrupts: takes them from the pair of 8259As and says whose they are.
//!
//! Before and after each call the pair is as after the boot: no line is masked, and nothing is in service.
#![tactic(auto)]

mod dispatch;
mod laws;
mod service;

pub use dispatch::{Drained, LINES, drain};
pub use laws::{changes_owner, drained_sets, goes_to_owner, rises_ask};
pub use service::{take_first, take_line};
