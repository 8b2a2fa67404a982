//! The board: the interrupt controllers, the timer and two serial ports, their interrupt lines and their ports.
//!
//! The timer's OUT 0 is line 0, COM1 is line 4 and COM2 line 3. A line that rises is latched in the controllers at once.
#![tactic(auto)]

mod board;
mod laws;

pub use board::{Board, Edges, NotYours};
pub use laws::{
    counts_down, device_steps, latches_rises, reads_one_shot, samples_port_alone, sets_one_shot,
    sets_ticks_left, ticks_one_shot,
};
