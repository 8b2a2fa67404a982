//! What both sides and both machines name alike: error numbers, the assignment of interrupt lines, and limits.
#![tactic(auto)]

mod errors;
pub mod limits;
pub mod lines;

pub use errors::{EAGAIN, EBUSY, EINVAL, ENODEV, ENOSPC, failed};
