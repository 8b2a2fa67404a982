//! One flat memory of two sides: the guest's from address 0, and the real-time side behind it.
#![tactic(auto)]

mod access;
mod memory;
mod side;

pub use access::{
    fetch, fits, load_byte, load_doubleword, load_word, store_byte, store_doubleword, store_word,
};
pub use memory::FlatMemory;
pub use side::Side;
