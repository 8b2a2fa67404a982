//! Images: ELF32 executables for the i386, read by the ELF specification and its i386 supplement, and placed on a side of
//! memory.
#![tactic(auto)]

mod field;
mod header;
mod image;
mod placing;
mod read;
mod spans;

pub use image::{ElfRefusal, Image, Segment};
pub use placing::{PlaceRefusal, place};
pub use read::read_image;
pub use spans::Spans;
