//! What the executive does to the board in a tick, with the hardware's lines.
//!
//! Each call changes just the parts that it is given, and the hardware's state that the board stands for is after it what the
//! hardware's definition says of that step.
#![tactic(auto)]

mod devices;
mod drain;
mod edges;
mod laws;
mod shot;
mod unit;

pub use devices::step_devices;
pub use drain::drain_board;
pub use laws::{
    access_keeps_board, is_device_step, is_drain_step, is_timer_step, is_unit_step, nothing_rises,
};
pub use shot::{set_shot, timer};
pub use unit::{unit_ack, unit_edges};
