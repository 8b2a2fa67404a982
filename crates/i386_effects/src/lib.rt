//! Effects of i386 instructions over any bus: their operands, read and written where they stand, and what an effect comes to.
//! Nothing is written before it is known that all of it can be.
#![tactic(auto)]

mod accesses;
mod eight;
mod operands;
mod stepped;

pub use accesses::{Touch, Words, Write, load_all, word};
pub use eight::push_eight;
pub use operands::{ACCUMULATOR, AH, DATA, address, finish, part, read, set, set_part, value};
pub use stepped::Stepped;
