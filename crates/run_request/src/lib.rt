//! The request of `run`: its words, and its system file, its image, its modules and its script, fetched from a store in this order.
#![tactic(auto)]

mod fetch;
mod modules;
mod open;
mod request;

pub use fetch::fetch_file;
pub use open::{no_script, open_run};
pub use request::request_run;
