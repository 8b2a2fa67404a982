//! The system file: which image runs beside which modules and with how much memory. It is a TOML document (TOML 1.1),
//! read by the `toml` crate, whose fields are:
//!
//! | field | value |
//! |---|---|
//! | `version` | 1 or 2: which of the ready threads of equal priority goes first, by arrival or by due |
//! | `image` | a name |
//! | `guest_memory` | bytes, 65,536 to 16,777,216 in steps of 4,096 |
//! | `real_time_memory` | bytes, 65,536 to 4,194,304 in steps of 4,096 |
//! | `modules` | optional, an array of at most 16 names |
//! | `script` | optional, a name |
//!
//! A name is a text of 1 to 255 bytes.
#![tactic(auto)]

mod name;
mod read;
mod system;

pub use name::Name;
pub use read::read_system;
pub use system::{System, SystemRefusal};
