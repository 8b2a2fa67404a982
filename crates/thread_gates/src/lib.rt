//! The gates of real-time activities on threads, over the executive's parts: what becomes of the threads, the ready list and the dues.
#![tactic(auto)]

mod gates;
mod lists;
mod start;

pub use gates::{
    create, delete, make_periodic, priority, set_priority, sleep, suspend, wait, wakeup,
};
pub use lists::release;
pub use start::starting;
