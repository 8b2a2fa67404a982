//! What is written of a run: its lines as they come, or three lines that sum them up.
#![tactic(auto)]

mod report;
mod sum;
mod summary;

pub use report::run_reported;
