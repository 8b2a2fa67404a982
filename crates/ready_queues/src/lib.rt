//! Ready threads in queues, one a priority: 256 queues over 64 links, and a set of 256 bits that says which of them aren't empty.
#![tactic(auto)]

mod priority_set;
mod queues;
mod walk;

pub use queues::{Member, Queues};
