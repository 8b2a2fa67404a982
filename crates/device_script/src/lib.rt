//! The script of a run: what the devices meet from outside, at which tick. A script has a line for each event,
//! `T line N`, `T com1 HH` or `T com2 HH`, in the order of their ticks, and empty lines and comments, which begin with `#`.
#![tactic(auto)]

mod cut;
mod draft;
mod event;
mod line;
mod read;
mod script;

pub use event::Event;
pub use read::read_script;
pub use script::{Script, ScriptRefusal};
