//! What `run` comes to before anything runs: what each file holds, or why it is refused; both sides of memory with the image
//! on the guest's, and the stub and the modules on the other; and the line of a refusal. Files are bytes here; who fetches them stands above.
#![tactic(auto)]

mod accept;
mod cause;
mod image;
mod line;
mod modules;
mod run;
mod sides;
mod stub;

pub use accept::{FILE_LIMIT, accept_image, accept_module, accept_script, accept_system};
pub use cause::{Cause, Refusal, Subject, refused};
pub use image::place_image;
pub use line::refusal_line;
pub use modules::{Loaded, load_module, reserve};
pub use run::{AcceptedRun, Report, Shown};
pub use sides::{Sides, make_sides};
pub use stub::{STACK_SIZE, STUB, STUB_ROOM, reserved_spans, store_stub};
