// Accesses to ports, and what the real-time side may not do. Registers of the 16550 by its data sheet, instructions by the
// Intel 80386 manual.

use breach_monitor::{Breach, Fault, GuestUnit, RealTimeUnit, guest_unit_on, real_time_unit_on};
use cpu_state::{Access, Privileged, Registers};
use port_board::Board;

/// The size of a side, and the real-time side's first address.
const SIZE: usize = 32;

const FIRST: u32 = 0x1000;

// A side whose first bytes are a program.
fn side(program: &[u8]) -> [u8; SIZE] {
    let mut bytes = [0; SIZE];
    for (place, byte) in bytes.iter_mut().zip(program) {
        *place = *byte;
    }
    bytes
}

// What the last of so many units of the guest comes to.
fn guest(program: &[u8], units: u8, regs: &mut Registers, board: &mut Board) -> GuestUnit {
    let mut bytes = side(program);
    let mut last = GuestUnit::Next;
    for _ in 0..units {
        last = guest_unit_on(regs, &mut bytes, board);
    }
    last
}

// What the last of so many units of a real-time activity comes to.
fn real_time(program: &[u8], units: u8, regs: &mut Registers, board: &mut Board) -> RealTimeUnit {
    let mut bytes = side(program);
    let mut last = RealTimeUnit::Next;
    for _ in 0..units {
        last = real_time_unit_on(regs, FIRST, &mut bytes, board);
    }
    last
}

/// A program, how many units of it, and what the last one comes to, and AL after it.
type GuestRow = (&'static [u8], u8, GuestUnit, u32);

static GUEST_UNITS: [GuestRow; 7] = [
    // MOV DX,3FAh and IN AL,DX: no interrupt of the serial port is pending
    (&[0x66, 0xba, 0xfa, 0x03, 0xec], 2, GuestUnit::Next, 0x01),
    // MOV DX,2F8h and IN AL,DX
    (
        &[0x66, 0xba, 0xf8, 0x02, 0xec],
        2,
        GuestUnit::Breach(Breach::Port(0x2f8)),
        0,
    ),
    // IN EAX,1Fh: ports 1Fh to 22h
    (&[0xe5, 0x1f], 1, GuestUnit::Breach(Breach::Port(0x1f)), 0),
    // MOV EAX,[1Eh], of which two bytes are behind the side
    (
        &[0xa1, 0x1e, 0, 0, 0],
        1,
        GuestUnit::Breach(Breach::Outside(Access::Load, 0x1e)),
        0,
    ),
    // HLT; INT F7h; INT F0h
    (
        &[0xf4],
        1,
        GuestUnit::Breach(Breach::Privileged(Privileged::Hlt)),
        0,
    ),
    (&[0xcd, 0xf7], 1, GuestUnit::Breach(Breach::Int(0xf7)), 0),
    (&[0xcd, 0xf0], 1, GuestUnit::Gate(0xf0, 2), 0),
];

#[test]
fn the_guest_reaches_its_own_ports(rt: HostRuntime) {
    for row in &GUEST_UNITS {
        let (program, units, due, value) = *row;
        let mut regs = Registers::new(0, 0x20);
        let mut board = Board::new();
        let came = guest(program, units, &mut regs, &mut board);
        let eax = regs.general[0];
        assert!(rt; came == due, "{:?} in place of {:?}", came, due);
        assert!(rt; eax == value, "{:?}: {eax}", program);
    }
}

// MOV DX,3F8h, MOV AL,41h, OUT DX,AL: the byte leaves COM1, and nothing leaves COM2.
#[test]
fn a_byte_of_the_guest_leaves_its_port(rt: HostRuntime) {
    let mut regs = Registers::new(0, 0x20);
    let mut board = Board::new();
    let came = guest(
        &[0x66, 0xba, 0xf8, 0x03, 0xb0, 0x41, 0xee],
        3,
        &mut regs,
        &mut board,
    );
    assert!(rt; came == GuestUnit::Next);
    let mut sent = None;
    for _ in 0..64 {
        let edges = board.tick(&[]);
        sent = sent.or(edges.com1);
        assert_eq!(rt; edges.com2, None);
    }
    assert_eq!(rt; sent, Some(0x41));
}

/// A program, how many units of it, ESP, what the last one comes to, and ESP after it.
type RealTimeRow = (&'static [u8], u8, u32, RealTimeUnit, u32);

static REAL_TIME_UNITS: [RealTimeRow; 8] = [
    // INT F8h, INT F9h, INT F0h
    (&[0xcd, 0xf8], 1, 0x1020, RealTimeUnit::Gate(0x1002), 0x1020),
    (&[0xcd, 0xf9], 1, 0x1020, RealTimeUnit::Return, 0x1020),
    (
        &[0xcd, 0xf0],
        1,
        0x1020,
        RealTimeUnit::Fault(Fault::Int),
        0x1020,
    ),
    // DIV EAX of 0; UD2; HLT
    (
        &[0xf7, 0xf0],
        1,
        0x1020,
        RealTimeUnit::Fault(Fault::Divide),
        0x1020,
    ),
    (
        &[0x0f, 0x0b],
        1,
        0x1020,
        RealTimeUnit::Fault(Fault::Opcode),
        0x1020,
    ),
    (
        &[0xf4],
        1,
        0x1020,
        RealTimeUnit::Fault(Fault::Privileged),
        0x1020,
    ),
    // PUSHF, whose doubleword begins a byte before the side
    (
        &[0x9c],
        1,
        0x1003,
        RealTimeUnit::Fault(Fault::Memory),
        0x1003,
    ),
    // MOV DX,3F8h and IN AL,DX
    (
        &[0x66, 0xba, 0xf8, 0x03, 0xec],
        2,
        0x1020,
        RealTimeUnit::Fault(Fault::Port),
        0x1020,
    ),
];

#[test]
fn a_real_time_activity_faults(rt: HostRuntime) {
    for row in &REAL_TIME_UNITS {
        let (program, units, esp, due, last_esp) = *row;
        let mut regs = Registers::new(FIRST, esp);
        let mut board = Board::new();
        let came = real_time(program, units, &mut regs, &mut board);
        let reached = regs.general[4];
        assert!(rt; came == due, "{:?} in place of {:?}", came, due);
        assert!(rt; reached == last_esp, "{:?}: {reached}", program);
    }
}

// STI, PUSHF and CLI on its own flag; a fetch behind its side, and from address 0.
#[test]
fn a_real_time_activity_has_its_own_flag(rt: HostRuntime) {
    let mut regs = Registers::new(FIRST, 0x1020);
    let mut board = Board::new();
    let mut bytes = side(&[0xfb, 0x9c, 0xfa]);
    for _ in 0..2 {
        let came = real_time_unit_on(&mut regs, FIRST, &mut bytes, &mut board);
        assert!(rt; came == RealTimeUnit::Next);
    }
    assert!(rt; regs.eflags.interrupt);
    assert_eq!(rt;
        u32::from_le_bytes([bytes[28], bytes[29], bytes[30], bytes[31]]),
        0x202
    );
    let came = real_time_unit_on(&mut regs, FIRST, &mut bytes, &mut board);
    assert!(rt; came == RealTimeUnit::Next);
    assert!(rt; !regs.eflags.interrupt);
    for eip in [0x1020, 0] {
        regs.eip = eip;
        let came = real_time_unit_on(&mut regs, FIRST, &mut bytes, &mut board);
        assert!(rt; came == RealTimeUnit::Fault(Fault::Memory));
        let came = guest_unit_on(&mut regs, &mut bytes, &mut board);
        let due = if eip == 0 {
            GuestUnit::Breach(Breach::Privileged(Privileged::Sti))
        } else {
            GuestUnit::Breach(Breach::Outside(Access::Fetch, eip))
        };
        assert!(rt; came == due);
    }
}
