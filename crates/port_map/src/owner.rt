// The owners of ports.

ghost use Rattle.std.specs.Prelude.{◌≡◌, ◌&&◌};
ghost use Rattle.cpu_state.specs.Width.{size};
ghost use Rattle.cpu_state.specs.Bus.{all_mine};
ghost use Rattle.port_map.specs.Owner.{com_port_of, is_mine};
ghost use Rattle.port_map.specs.Serial.{serial_ports};

use crate::com_port::ComPort;
use cpu_state::Width;
use pic_8259::{MASTER_COMMAND, MASTER_DATA, SLAVE_COMMAND, SLAVE_DATA};
use pit_8254::{CONTROL_WORD, COUNTER_0};

/// Who accesses a port.
#[derive(Clone, Copy, Debug, PartialEq, Eq)]
pub enum Owner {
    /// The guest, whose serial port is COM1.
    Guest,
    /// The real-time side, whose serial port is COM2.
    RealTime,
}

impl Owner {
    /// The serial port that is the owner's own.
    pub fn com_port(self) -> ComPort
        ensures { result ≡ com_port_of self }
    {
        match self {
            Owner::Guest => ComPort::Com1,
            Owner::RealTime => ComPort::Com2,
        }
    }

    // Whether a port is the owner's, or nobody's.
    fn has(self, port: u16) -> bool
        ensures { result ≡ is_mine self port }
    {
        match port {
            MASTER_COMMAND | MASTER_DATA | SLAVE_COMMAND | SLAVE_DATA => false,
            COUNTER_0..=CONTROL_WORD => false,
            _ => !self.com_port().other().is_serial(port),
        }
    }

    fn has_two(self, port: u16) -> bool
        ensures { result ≡ all_mine (serial_ports (com_port_of self)) port 2 }
    {
        self.has(port) && self.has(port.wrapping_add(1))
    }

    fn has_four(self, port: u16) -> bool
        ensures { result ≡ all_mine (serial_ports (com_port_of self)) port 4 }
    {
        let first = self.has(port);
        let second = self.has(port.wrapping_add(1));
        let third = self.has(port.wrapping_add(2));
        let fourth = self.has(port.wrapping_add(3));
        are_all(first, second, third, fourth)
    }

    /// Whether all ports that an access touches are the owner's or nobody's.
    pub fn has_all(self, port: u16, width: Width) -> bool
        ensures { result ≡ all_mine (serial_ports (com_port_of self)) port (size width) }
    {
        match width {
            Width::W8 => self.has(port),
            Width::W16 => self.has_two(port),
            Width::W32 => self.has_four(port),
        }
    }
}

fn are_all(first: bool, second: bool, third: bool, fourth: bool) -> bool
    ensures { result ≡ (first && (second && (third && fourth))) }
{
    first && second && third && fourth
}
