//! The request of `make`: its words, and the system that is made of their number, with its guest and its module on both sides of
//! memory. No file is read.
#![tactic(auto)]

mod laws;
mod place;
mod request;
mod run;

pub use laws::{guest_has_its_place, module_has_its_place};
pub use request::request_make;
pub use run::make_run;
