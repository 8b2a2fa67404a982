//! Entries of vectors through the guest's own descriptor table.
#![tactic(auto)]

mod entry;

pub use entry::{Entry, enter};
