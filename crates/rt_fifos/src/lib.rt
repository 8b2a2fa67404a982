//! FIFOs between the guest and the real-time side: 64 rings of bytes, made at once.
#![tactic(auto)]

mod fifos;
mod room;

pub use fifos::Fifos;
