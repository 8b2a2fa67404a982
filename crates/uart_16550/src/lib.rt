//! The serial port 16550, after its data sheet (National Semiconductor PC16550D). Time is ticks: a byte takes 32 to leave,
//! and one that waits to be read for 128 is a timeout. The divisor and the frame's form have no effect on time.
#![tactic(auto)]

mod laws;
mod uart;

pub use laws::{keeps_order, sends_in_33_ticks};
pub use uart::Uart;
