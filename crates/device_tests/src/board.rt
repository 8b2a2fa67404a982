// The lines that rise by accesses, in device steps and by the one-shot. The values are worked out by hand from these rules. COM1 has
// line 4, COM2 line 3 and the timer's counter 0 line 0 (IBM PC/AT Technical Reference, "System Interrupts"). A port's line is high
// where an enabled cause asks and OUT2 is set (PC16550D data sheet, section 8, and the PC/AT's wiring), and rises where it was low
// before. A byte that is written waits for the next tick and leaves 32 ticks after that. Counter 0 has two pulses a tick, and mode 0
// rises a pulse after its count (8254 data sheet, "Mode 0"): a one-shot of k ticks has the count 2k-1.

use cpu_state::Width::{W8, W16, W32};
use device_script::Event;
use port_board::{Board, NotYours};
use port_map::Owner::{Guest, RealTime};

// Registers of the serial ports: THR, IER, and MCR with OUT2.
const COM1_THR: u16 = 0x3F8;

const COM1_IER: u16 = 0x3F9;

const COM1_MCR: u16 = 0x3FC;

const COM2_IER: u16 = 0x2F9;

const COM2_MCR: u16 = 0x2FC;

// Does no byte leave and no line rise in so many ticks?
fn is_quiet(board: &mut Board, ticks: u8) -> bool {
    for _ in 0..ticks {
        let edges = board.tick(&[]);
        if edges.com1.is_some() || edges.com2.is_some() || edges.lines != 0 {
            return false;
        }
    }
    true
}

#[test]
fn a_rise_by_an_access_is_latched_at_once(rt: HostRuntime) {
    let mut board = Board::new();
    board.pair.initialize();
    assert_eq!(rt; board.write(Guest, COM1_MCR, W8, 8), Ok(()));
    assert_eq!(rt; board.take_rises(), 0);
    assert_eq!(rt; board.pair.request(), None);
    // the transmitter is empty, so it asks as soon as it is let through
    assert_eq!(rt; board.write(Guest, COM1_IER, W8, 2), Ok(()));
    assert_eq!(rt; board.pair.request(), Some(4));
    assert_eq!(rt; board.take_rises(), 0x0010);
    assert_eq!(rt; board.take_rises(), 0);
    assert_eq!(rt; board.write(RealTime, COM2_IER, W32, 0x0800_0002), Ok(()));
    assert_eq!(rt; board.take_rises(), 0x0008);
}

#[test]
fn an_access_that_touches_anothers_port_is_refused_whole(rt: HostRuntime) {
    let mut board = Board::new();
    assert_eq!(rt; board.write(Guest, 0x2F5, W32, 0x4142_4344), Err(NotYours));
    assert_eq!(rt; board.read(RealTime, 0x1F, W16), Err(NotYours));
    assert!(rt; is_quiet(&mut board, 40));
    // the ports FFFFh, 0, 1 and 2 are nobody's
    assert_eq!(rt; board.read(Guest, 0xFFFF, W32), Ok(0xFFFF_FFFF));
}

#[test]
fn a_byte_leaves_and_bytes_of_the_script_come_in(rt: HostRuntime) {
    let mut board = Board::new();
    board.pair.initialize();
    for (owner, port, byte) in [
        (Guest, COM1_IER, 1),
        (Guest, COM1_MCR, 8),
        (RealTime, COM2_IER, 1),
        (RealTime, COM2_MCR, 8),
        (Guest, COM1_THR, 0x41),
    ] {
        assert!(rt; board.write(owner, port, W8, byte).is_ok());
    }
    assert!(rt; is_quiet(&mut board, 32));
    let edges = board.tick(&[
        Event::Com2(0x42),
        Event::Line(9),
        Event::Com1(0x43),
        Event::Line(9),
    ]);
    assert_eq!(rt; edges.com1, Some(0x41));
    assert_eq!(rt; edges.lines, 0x0218);
    // a line that stays high rises once
    assert_eq!(rt; board.tick(&[Event::Com1(0x44)]).lines, 0);
    assert_eq!(rt; board.read(Guest, COM1_THR, W8), Ok(0x44));
    assert_eq!(rt; board.tick(&[Event::Com1(0x45)]).lines, 0x0010);
    assert_eq!(rt; board.take_rises(), 0);
}

#[test]
fn the_one_shot_rises_in_its_tick(rt: HostRuntime) {
    let mut board = Board::new();
    board.set_one_shot(3);
    for lines in [0, 0, 1, 0] {
        assert_eq!(rt; board.tick(&[]).lines, lines);
    }
    board.set_one_shot(2);
    board.set_one_shot(1);
    assert_eq!(rt; board.tick(&[]).lines, 1);
}
