// The two serial ports of the PC.

ghost use Rattle.std.specs.Prelude.{◌≡◌};
ghost use Rattle.port_map.specs.ComPort.{base_of, interrupt_line, other, is_serial};

use rt_constants::lines::{COM1_LINE, COM2_LINE};

/// A serial port, by the PC's name.
#[derive(Clone, Copy, Debug, PartialEq, Eq)]
pub enum ComPort {
    /// The one at 3F8h to 3FFh, on line 4.
    Com1,
    /// The one at 2F8h to 2FFh, on line 3.
    Com2,
}

/// COM1's first port.
const COM1_BASE: u16 = 0x3F8;
/// COM2's first port.
const COM2_BASE: u16 = 0x2F8;
/// How many ports a serial port has.
const SERIAL_PORTS: u16 = 8;

impl ComPort {
    /// The first of its ports.
    pub fn base(self) -> u16
        ensures { result ≡ base_of self }
    {
        match self {
            ComPort::Com1 => COM1_BASE,
            ComPort::Com2 => COM2_BASE,
        }
    }

    /// Its interrupt line.
    pub fn line(self) -> u8
        ensures { result ≡ interrupt_line self }
    {
        match self {
            ComPort::Com1 => COM1_LINE,
            ComPort::Com2 => COM2_LINE,
        }
    }

    /// The other serial port.
    pub fn other(self) -> ComPort
        ensures { result ≡ other self }
    {
        match self {
            ComPort::Com1 => ComPort::Com2,
            ComPort::Com2 => ComPort::Com1,
        }
    }

    /// Whether a port is one of its eight.
    pub fn is_serial(self, port: u16) -> bool
        ensures { result ≡ is_serial self port }
    {
        let base = self.base();
        base <= port && port - base < SERIAL_PORTS
    }
}
