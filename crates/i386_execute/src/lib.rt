//! One unit of an i386 processor over any bus: the instruction at EIP, performed whole or not at all. Each row of the tables of
//! loads and changes is a function, which reads each operand as it is met and makes its one store last.
#![tactic(auto)]

mod arithmetic;
mod bits;
mod flags;
mod interrupts;
mod jumps;
mod moves;
mod own_flag;
mod products;
mod results;
mod stack;
mod unit;

pub use i386_effects::Stepped;
pub use own_flag::privileged;
pub use unit::{DIVIDE_ERROR, INVALID_OPCODE, after, step};
