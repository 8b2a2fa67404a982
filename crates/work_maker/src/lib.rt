//! A large system from a number: a guest with a timer and a handler, a module with eight periodic threads, and a script of up to
//! 100,000 events. Priorities, periods, work, kinds, ticks and bytes are drawn from the number, always in the same way.
#![tactic(auto)]

mod draws;
mod guest;
mod laws;
mod made;
mod module;
mod rows;
mod script;
mod segment;
#[cfg(test)]
mod tests;

pub use draws::Thread;
pub use laws::{guest_apart, guest_inside, keeps_rules, module_apart, module_inside, segments_fit};
pub use made::{GUEST_SIZE, Made, REAL_TIME_SIZE, make};
pub use rows::{draws_numbers, draws_scripts, makes_code};
