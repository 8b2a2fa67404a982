// Accesses of one, two and four bytes to a serial port, and to the ports where nothing stands.

ghost use Rattle.std.specs.Prelude.{◌≡◌};
ghost use Rattle.cpu_state.specs.Width.{size};
ghost use Rattle.port_map.specs.Serial.{byte_of, after_byte, byte_written, bytes_of, after_bytes, bytes_written};

use crate::com_port::ComPort;
use cpu_state::Width;
use uart_16550::Uart;

/// What a port reads where nothing stands.
const NOTHING: u8 = 0xFF;

#[tactic(auto, unfolding(crate::specs::Serial::byte_of, crate::specs::Serial::after_byte))]
fn read_byte(which: ComPort, port: u16, uart: &mut Uart) -> u8
    ensures value { result ≡ byte_of which port uart.old }
    ensures after { uart.new ≡ after_byte which port uart.old }
{
    if which.is_serial(port) {
        uart.read((port - which.base()) as u8)
    } else {
        NOTHING
    }
}

#[tactic(auto, unfolding(crate::specs::Serial::byte_written))]
fn write_byte(which: ComPort, port: u16, value: u8, uart: &mut Uart)
    ensures { uart.new ≡ byte_written which port value uart.old }
{
    if which.is_serial(port) {
        uart.write((port - which.base()) as u8, value);
    }
}

fn read_two(which: ComPort, port: u16, uart: &mut Uart) -> u16
    ensures value { result ≡ bytes_of which port 2 uart.old }
    ensures after { uart.new ≡ after_bytes which port 2 uart.old }
{
    let low = read_byte(which, port, uart) as u16;
    let high = read_byte(which, port.wrapping_add(1), uart) as u16;
    low + 0x100 * high
}

fn read_four(which: ComPort, port: u16, uart: &mut Uart) -> u32
    ensures value { result ≡ bytes_of which port 4 uart.old }
    ensures after { uart.new ≡ after_bytes which port 4 uart.old }
{
    let first = read_byte(which, port, uart) as u32;
    let second = read_byte(which, port.wrapping_add(1), uart) as u32;
    let rest = read_two(which, port.wrapping_add(1).wrapping_add(1), uart) as u32;
    first + 0x100 * (second + 0x100 * rest)
}

fn write_two(which: ComPort, port: u16, value: u32, uart: &mut Uart)
    ensures { uart.new ≡ bytes_written which port 2 value uart.old }
{
    write_byte(which, port, (value % 0x100) as u8, uart);
    write_byte(
        which,
        port.wrapping_add(1),
        (value / 0x100 % 0x100) as u8,
        uart,
    );
}

fn write_four(which: ComPort, port: u16, value: u32, uart: &mut Uart)
    ensures { uart.new ≡ bytes_written which port 4 value uart.old }
{
    write_byte(which, port, (value % 0x100) as u8, uart);
    write_byte(
        which,
        port.wrapping_add(1),
        (value / 0x100 % 0x100) as u8,
        uart,
    );
    write_two(
        which,
        port.wrapping_add(1).wrapping_add(1),
        value / 0x100 / 0x100,
        uart,
    );
}

/// Reads as many ports as the width has bytes: those of the serial port, whose device is `uart`, and all ones elsewhere.
pub fn read_serial(which: ComPort, port: u16, width: Width, uart: &mut Uart) -> u32
    ensures value { result ≡ bytes_of which port (size width) uart.old }
    ensures after { uart.new ≡ after_bytes which port (size width) uart.old }
{
    match width {
        Width::W8 => read_byte(which, port, uart) as u32,
        Width::W16 => read_two(which, port, uart) as u32,
        Width::W32 => read_four(which, port, uart),
    }
}

/// Writes the low bytes of a value to as many ports as the width has bytes: to those of the serial port, whose device
/// is `uart`.
pub fn write_serial(which: ComPort, port: u16, width: Width, value: u32, uart: &mut Uart)
    ensures { uart.new ≡ bytes_written which port (size width) value uart.old }
{
    match width {
        Width::W8 => write_byte(which, port, (value % 0x100) as u8, uart),
        Width::W16 => write_two(which, port, value, uart),
        Width::W32 => write_four(which, port, value, uart),
    }
}
