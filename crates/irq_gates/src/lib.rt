//! The gates of real-time activities on interrupt lines: a module takes a hard line or gives it back, takes a soft line or gives it
//! back, or marks a line for the guest.
//!
//! Where a hard line's owner changes, what stands on it is acknowledged, so that the new owner doesn't get it: the guest gets it by a
//! mark where the line was its own, and else it is dropped. Before and after each call the pair is as after the boot.
#![tactic(auto)]

mod gates;
mod laws;

pub use gates::{LineEffect, free, free_soft, get_soft, pend, request};
pub use laws::leaves_owners;
