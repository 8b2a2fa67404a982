// What is kept of a run.
use rt_core::Machine;

/// The machine that ran last: after an answer that all ticks ran it is there, and after every other answer it isn't.
#[derive(Drop)]
pub enum Last {
    Nothing,
    Ran(Machine),
}
