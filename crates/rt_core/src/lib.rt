//! The machine: one memory, one processor, one board of devices, the executive's parts and the guest's soft side, moved by one tick at a
//! time.
//!
//! A tick is five steps, each a function over just the parts that it may change: the devices, the drain of the interrupt controllers, the
//! pick of an activity, its unit, and the timer. What a machine stands for is said in `machine_state`.
#![tactic(auto)]

mod coming;
mod end;
mod first;
mod machine;
mod steps;

pub use end::EndLines;
pub use machine::{Machine, Parts};
