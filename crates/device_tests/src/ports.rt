// Which accesses each owner may make. The ports are those of the IBM PC/AT's I/O address map: 20h, 21h, A0h and A1h are the
// interrupt controllers', 40h to 43h the timer's, 2F8h to 2FFh COM2's and 3F8h to 3FFh COM1's. An access is an owner's where each
// port that it touches, rising modulo 65,536, is of the owner's serial port or of nobody.

use cpu_state::Width;
use cpu_state::Width::{W8, W16, W32};
use port_map::ComPort::{Com1, Com2};
use port_map::Owner::{Guest, RealTime};
use port_map::{read_serial, write_serial};
use uart_16550::Uart;

/// An access, and whether it is the guest's and the real-time side's.
static ACCESSES: [(u16, Width, bool, bool); 8] = [
    (0x1F, W16, false, false),
    (0x3C, W32, true, true),
    (0x3D, W32, false, false),
    (0xA1, W8, false, false),
    (0x2F7, W16, false, true),
    (0x3F5, W32, true, false),
    (0x3FF, W16, true, false),
    (0xFFFF, W32, true, true),
];

#[test]
fn an_owner_may_access_its_serial_port_and_the_ports_of_nobody(rt: HostRuntime) {
    for (port, width, guest, real_time) in ACCESSES {
        assert_eq!(rt; Guest.has_all(port, width), guest, "the guest at {port}");
        assert_eq!(rt;
            RealTime.has_all(port, width),
            real_time,
            "the real-time side at {port}"
        );
    }
}

// The scratch register is the last port of a serial port and keeps what is written; from the fourth on come LCR, MCR, LSR, in which
// an idle transmitter is 60h, and MSR (PC16550D data sheet, section 8). Ports of nobody read all ones.
#[test]
fn bytes_go_to_rising_ports(rt: HostRuntime) {
    let mut uart = Uart::new();
    write_serial(Com1, 0x3FF, W16, 0x1234, &mut uart);
    assert_eq!(rt; read_serial(Com1, 0x3FF, W16, &mut uart), 0xFF34);
    write_serial(Com1, 0x3FB, W16, 0x0B03, &mut uart);
    assert_eq!(rt; read_serial(Com1, 0x3FB, W32, &mut uart), 0x0060_0B03);
    assert_eq!(rt; read_serial(Com2, 0x2FF, W8, &mut uart), 0x34);
    assert_eq!(rt; read_serial(Com2, 0xFFFF, W32, &mut uart), 0xFFFF_FFFF);
}
