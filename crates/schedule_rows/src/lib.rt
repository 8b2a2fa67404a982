//! Worked runs of both machines, with the lines that the definitions give by computation.
//!
//! The sides are small, and the processor is the one of `i386_execute`, with its own table of spellings. The lines of each row were worked
//! out by hand, from the machine (docs/MACHINE.md), the guest's gates (docs/GUEST.md) and the schedule (docs/SCHEDULE.md). A row is a clause
//! whose proof is that both sides compute to one thing.
#![tactic(auto)]

mod guest;
mod hardware;
mod real_time;

pub use guest::{breach_rows, guest_rows};
pub use hardware::{acknowledgement_rows, one_shot_rows};
pub use real_time::{call_rows, fault_rows, serial_rows, thread_rows, version_rows, wait_rows};
