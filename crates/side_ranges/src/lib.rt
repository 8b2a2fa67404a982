//! Ranges of bytes on a side of memory, which may be empty: the first byte that is outside, the bytes of a range, and stores of bytes.
#![tactic(auto)]

mod ranges;

pub use ranges::{first_outside_of, range, store_bytes, with_zeros};
