// Scripts of calls of the 16550. The values are worked out by hand from the PC16550D data sheet, section 8, and from the times of the
// crate's head: a byte takes 32 ticks to leave, and one that waits to be read for 128 is a timeout.

use uart_16550::Uart;

const RBR: u8 = 0;

// Does one thing of a script, and says whether the port answered as the script says. The number has two bytes. W writes the second to
// the register at the first, R reads that register, which gives the second, I lets the bytes from the first to the second come in, and
// E reads these from RBR. With one byte, T is so many ticks in which no byte leaves, S a tick in which this byte leaves, and L the
// level of the interrupt line.
fn answers(port: &mut Uart, what: u8, number: u32) -> bool {
    let first = (number / 0x100 % 0x100) as u8;
    let second = (number % 0x100) as u8;
    match what {
        b'W' => {
            port.write(first % 8, second);
            true
        }
        b'R' => port.read(first % 8) == second,
        b'I' => comes_in(port, first, second),
        b'E' => gives(port, first, second),
        b'T' => is_quiet(port, second),
        b'S' => port.tick() == Some(second),
        _ => port.line() == (second == 1),
    }
}

fn comes_in(port: &mut Uart, first: u8, last: u8) -> bool {
    for byte in first..=last {
        port.receive(byte);
    }
    true
}

fn gives(port: &mut Uart, first: u8, last: u8) -> bool {
    for byte in first..=last {
        if port.read(RBR) != byte {
            return false;
        }
    }
    true
}

fn is_quiet(port: &mut Uart, ticks: u8) -> bool {
    for _ in 0..ticks {
        if port.tick().is_some() {
            return false;
        }
    }
    true
}

// Does a whole script, whose things are apart by a space and end with one. Numbers are hex.
fn follows(script: &str) -> bool {
    let mut port = Uart::new();
    let mut what = 0;
    let mut number: u32 = 0;
    for byte in script.bytes() {
        match byte {
            b' ' => {
                if !answers(&mut port, what, number) {
                    return false;
                }
                number = 0;
            }
            b'0'..=b'9' => number = number % 0x1000 * 0x10 + (byte - b'0') as u32,
            b'a'..=b'f' => number = number % 0x1000 * 0x10 + (byte - b'a') as u32 + 10,
            _ => what = byte,
        }
    }
    true
}

// Each script with the rule that it shows. The registers are RBR and THR 0, IER 1, IIR and FCR 2, LCR 3, MCR 4 and LSR 5.
static SCRIPTS: [(&str, &str); 8] = [
    (
        "R100 R201 R560 L0 ",
        "a fresh port has an idle transmitter, and asks for nothing",
    ),
    (
        "W380 W034 W112 W303 R000 R100 W383 R034 R112 ",
        "the divisor stands at 0 and 1 while DLAB is set, and is kept",
    ),
    (
        "W107 I4142 R206 R563 R204 R042 R202 R201 ",
        "line status comes before received data, and that before the transmitter",
    ),
    (
        "W102 R202 W041 R201 T1 R202 T1f S41 R201 R560 ",
        "the transmitter asks when its buffer is empty, not when the byte has left",
    ),
    (
        "W201 R2c1 I111 R563 E110 R560 ",
        "a FIFO keeps 16 bytes in order, and a seventeenth is an overrun",
    ),
    (
        "W281 W101 W408 I107 L0 I808 L1 W400 L0 ",
        "the trigger of 8, by the line, which OUT2 lets through",
    ),
    (
        "W241 W101 I4141 T7f R2c1 T1 R2cc R041 R2c1 ",
        "the timeout comes in tick 128, and the read ends it",
    ),
    (
        "I4141 W042 W201 R560 T28 ",
        "turning the FIFOs on empties both buffers",
    ),
];

#[test]
fn a_port_follows_the_data_sheet(rt: HostRuntime) {
    for (script, rule) in &SCRIPTS {
        assert!(rt; follows(script), "{rule}: {script}");
    }
}
