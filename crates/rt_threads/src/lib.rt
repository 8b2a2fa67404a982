//! The threads of the real-time side: their registers, priorities, states, periods and next dues.
//!
//! A thread's state is said once, here. Who is ready in which order, and which due is the nearest, stand in crates of their own; the
//! crate of the gates keeps the three in agreement.
#![tactic(auto)]

mod threads;

pub use threads::{State, Thread, Threads};
