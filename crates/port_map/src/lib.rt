//! The two serial ports, which port is whose, and accesses to a serial port. The guest has COM1 at 3F8h to 3FFh, the real-time
//! side COM2 at 2F8h to 2FFh, and the executive the interrupt controllers and the timer. A port of nobody reads all ones and ignores
//! writes. An access of several bytes touches that many ports, rising, modulo 65,536, one byte each.
#![tactic(auto)]

mod com_port;
mod owner;
mod serial;

pub use com_port::ComPort;
pub use owner::Owner;
pub use serial::{read_serial, write_serial};
