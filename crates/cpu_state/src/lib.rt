//! The state of an i386 processor, and the bus over which it reaches memory and devices.
#![tactic(auto)]

mod bus;
mod eflags;
mod op;
mod registers;
mod width;

pub use bus::Bus;
pub use eflags::Eflags;
pub use op::Op;
pub use registers::{
    Access, Context, EAX, EBP, EBX, ECX, EDI, EDX, ESI, ESP, Privileged, Registers,
};
pub use width::Width;
