//! An 8254 programmable interval timer, after Intel's data sheet of the 8254.
//!
//! Counters count in binary in modes 0, 2 and 3 with their gates high. The other modes, BCD and the read-back command are left
//! out.
#![tactic(auto)]

mod counter;
mod laws;
mod pit;

pub use counter::{Access, Counter, Mode};
pub use laws::{follows_pulses, is_low_once_per_cycle, rises_after_count, takes_next_count};
pub use pit::{CONTROL_WORD, COUNTER_0, COUNTER_1, COUNTER_2, Pit};
