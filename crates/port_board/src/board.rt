// The devices, their lines, and accesses to their ports.

ghost use Rattle.std.specs.Prelude.{◌≡◌, ◌<◌, ◌≤◌, ◌||◌, if◌then◌else◌, IsTrue, ℕ, Some, None};
ghost use Rattle.line_sets.specs.LineSet.{has};
ghost use Rattle.pic_8259.specs.Controllers.{IsPair, latch_of};
ghost use Rattle.pic_8259.specs.Boot.{IsBooted};
ghost use Rattle.pit_8254.specs.Timer.{all_pulsed};
ghost use Rattle.port_map.specs.declared.com_port.ComPort.{ComPort};
ghost use Rattle.cpu_state.specs.Width.{size};
ghost use Rattle.cpu_state.specs.Bus.{all_mine};
ghost use Rattle.port_map.specs.Serial.{sampled_now};
ghost use Rattle.device_script.specs.Event.{is_device_event};
ghost use Rattle.port_board.specs.OneShot.{one_shot_set, one_less};
ghost use Rattle.port_board.specs.Left.{ticks_left, IsShot};
ghost use Rattle.port_board.specs.Steps.{line_rises, serial_stepped};
ghost use Rattle.port_board.specs.Board.{IsSampled, rises_of, rises_taken, serial_of, accessed, rises_if, com1_sampled, com2_sampled, sampled, ports_of, ports_with, pulsed_once, event_done, events_done, AreEvents, device_step, edges_of, new_board};

use cpu_state::Width;
use device_script::Event;
use line_sets::with_line16;
use pic_8259::Pair;
use pit_8254::{CONTROL_WORD, COUNTER_0, Pit};
use port_map::{ComPort, Owner, read_serial, write_serial};
use rt_constants::lines::{COM1_LINE, COM2_LINE, TIMER_LINE};
use uart_16550::Uart;

/// An access touches a port that is another owner's.
#[derive(Clone, Copy, Debug, PartialEq, Eq)]
pub struct NotYours;

/// What a device step gives: the set of lines that rose, and the bytes that left COM1 and COM2.
#[derive(Clone, Copy, Debug)]
pub struct Edges {
    pub lines: u16,
    pub com1: Option<u8>,
    pub com2: Option<u8>,
}

/// The control word of the one-shot: counter 0, both bytes of the count, low byte first, mode 0, binary.
const ONE_SHOT: u8 = 0x30;

/// The devices, the levels that were sampled last, and the lines that rose by accesses.
#[derive(Drop)]
pub struct Board {
    pub pair: Pair,
    pub pit: Pit,
    pub com1: Uart,
    pub com2: Uart,
    timer_high: bool,
    com1_high: bool,
    com2_high: bool,
    rises: u16,
}

impl Board {
    /// The devices as they are made.
    pub fn new() -> Board
        ensures value { result ≡ new_board }
        ensures sampled { IsSampled result }
        ensures left { ticks_left result ≡ None }
        ensures shot { IsShot result }
    {
        Board {
            pair: Pair::new(),
            pit: Pit::new(),
            com1: Uart::new(),
            com2: Uart::new(),
            timer_high: false,
            com1_high: false,
            com2_high: false,
            rises: 0,
        }
    }

    /// The lines that rose by accesses since the last call.
    pub fn take_rises(&mut self) -> u16
        ensures lines { result ≡ rises_of self.old }
        ensures after { self.new ≡ rises_taken self.old }
    {
        let lines = self.rises;
        self.rises = 0;
        lines
    }

    // Latches a line that rose, and gives the set with it.
    fn latch(&mut self, rose: bool, line: u8, lines: u16) -> u16
        requires { line < 16 }
        ensures after { record { board = self.new; lines = result } ≡ rises_if rose line (record { board = self.old; lines = lines }) }
        ensures com1 { self.new.com1 ≡ self.old.com1 }
        ensures com2 { self.new.com2 ≡ self.old.com2 }
    {
        if rose {
            self.pair.edge(line);
            with_line16(lines, line)
        } else {
            lines
        }
    }

    fn sample_com1(&mut self, lines: u16) -> u16
        ensures { record { board = self.new; lines = result } ≡ com1_sampled (record { board = self.old; lines = lines }) }
    {
        let high = self.com1.line();
        let rose = high && !self.com1_high;
        self.com1_high = high;
        self.latch(rose, COM1_LINE, lines)
    }

    fn sample_com2(&mut self, lines: u16) -> u16
        ensures { record { board = self.new; lines = result } ≡ com2_sampled (record { board = self.old; lines = lines }) }
    {
        let high = self.com2.line();
        let rose = high && !self.com2_high;
        self.com2_high = high;
        self.latch(rose, COM2_LINE, lines)
    }

    // Samples the lines of the serial ports.
    fn sample(&mut self, lines: u16) -> u16
        ensures { record { board = self.new; lines = result } ≡ sampled (record { board = self.old; lines = lines }) }
    {
        let lines = self.sample_com1(lines);
        self.sample_com2(lines)
    }

    // The sampling after an access to a serial port.
    fn settle(&mut self, which: ComPort)
        ensures { self.new ≡ accessed which (sampled_now (serial_of which self.old).port) self.old }
    {
        match which {
            ComPort::Com1 => self.rises = self.sample_com1(self.rises),
            ComPort::Com2 => self.rises = self.sample_com2(self.rises),
        }
    }

    /// Reads as many ports as the width has bytes, rising from this one, the first in the low byte. Where one of them is
    /// another owner's, nothing is read and nothing changes. Then the line of the owner's serial port is sampled, and a
    /// rise is latched at once.
    pub fn read(&mut self, owner: Owner, port: u16, width: Width) -> Result<u32, NotYours>
        ensures value { result ≡ (if all_mine (ports_of owner) port (size width) then Ok ((ports_of owner).answer self.old port (size width)) else Err (record {})) }
        ensures after { self.new ≡ (if all_mine (ports_of owner) port (size width) then (ports_of owner).after_in self.old port (size width) else self.old) }
        ensures sampled { IsSampled self.old → IsSampled self.new }
    {
        if !owner.has_all(port, width) {
            return Err(NotYours);
        }
        Ok(self.read_with(owner.com_port(), port, width))
    }

    // A read of ports that are this serial port's or nobody's.
    fn read_with(&mut self, which: ComPort, port: u16, width: Width) -> u32
        ensures value { result ≡ (ports_with which).answer self.old port (size width) }
        ensures after { self.new ≡ (ports_with which).after_in self.old port (size width) }
    {
        let value = match which {
            ComPort::Com1 => read_serial(which, port, width, &mut self.com1),
            ComPort::Com2 => read_serial(which, port, width, &mut self.com2),
        };
        self.settle(which);
        value
    }

    /// Writes the low bytes of a value to as many ports as the width has bytes, as `read` reads them.
    pub fn write(
        &mut self,
        owner: Owner,
        port: u16,
        width: Width,
        value: u32,
    ) -> Result<(), NotYours>
        ensures value { result ≡ (if all_mine (ports_of owner) port (size width) then Ok tt else Err (record {})) }
        ensures after { self.new ≡ (if all_mine (ports_of owner) port (size width) then (ports_of owner).after_out self.old port (size width) value else self.old) }
        ensures sampled { IsSampled self.old → IsSampled self.new }
    {
        if !owner.has_all(port, width) {
            return Err(NotYours);
        }
        self.write_with(owner.com_port(), port, width, value);
        Ok(())
    }

    // A write to ports that are this serial port's or nobody's.
    fn write_with(&mut self, which: ComPort, port: u16, width: Width, value: u32)
        ensures { self.new ≡ (ports_with which).after_out self.old port (size width) value }
    {
        match which {
            ComPort::Com1 => write_serial(which, port, width, value, &mut self.com1),
            ComPort::Com2 => write_serial(which, port, width, value, &mut self.com2),
        }
        self.settle(which);
    }

    // A pulse of the timer.
    fn pulse(&mut self, lines: u16) -> u16
        ensures after { record { board = self.new; lines = result } ≡ pulsed_once (record { board = self.old; lines = lines }) }
        ensures com1 { self.new.com1 ≡ self.old.com1 }
        ensures com2 { self.new.com2 ≡ self.old.com2 }
    {
        let [high, _, _] = self.pit.pulse();
        let rose = high && !self.timer_high;
        self.timer_high = high;
        self.latch(rose, TIMER_LINE, lines)
    }

    // An event of the script.
    fn event(&mut self, event: Event, lines: u16) -> u16
        requires { IsTrue (is_device_event event) }
        ensures { record { board = self.new; lines = result } ≡ event_done event (record { board = self.old; lines = lines }) }
    {
        match event {
            Event::Line(line) => return self.latch(true, line, lines),
            Event::Com1(byte) => self.com1.receive(byte),
            Event::Com2(byte) => self.com2.receive(byte),
        }
        lines
    }

    // The script's events of a tick.
    fn events(&mut self, events: &[Event], lines: u16) -> u16
        requires { AreEvents events.now }
        ensures { record { board = self.new; lines = result } ≡ events_done events.now (record { board = self.old; lines = lines }) }
    {
        let mut lines = lines;
        for event in events {
            lines = self.event(*event, lines);
        }
        lines
    }

    /// The device step of a tick: two pulses of the timer, one tick of each serial port, the script's events of this tick
    /// in their order, and the sampling of the serial ports' lines. Line 0 rises where the one-shot has one tick left, 4 and 3
    /// where COM1's and COM2's lines do, and the others where the script says so. A pair as after the boot stays one.
    pub fn tick(&mut self, events: &[Event]) -> Edges
        requires { AreEvents events.now }
        ensures edges { result ≡ edges_of events.now self.old }
        ensures after { self.new ≡ (device_step events.now self.old).board }
        ensures sampled { IsSampled self.new }
        ensures booted { IsBooted self.old.pair → IsBooted self.new.pair }
        ensures pair { IsPair self.old.pair → IsPair self.new.pair }
        ensures latched { IsPair self.old.pair → (n : ℕ) → has (latch_of self.new.pair) n ≡ (has (latch_of self.old.pair) n || has result.lines n) }
        ensures rising { IsShot self.old → (n : ℕ) → has result.lines n ≡ line_rises events.now self.old self.new n }
        ensures left { IsShot self.old → ticks_left self.new ≡ one_less (ticks_left self.old) }
        ensures shot { IsShot self.old → IsShot self.new }
        ensures timer { self.new.pit ≡ all_pulsed (all_pulsed self.old.pit) }
        ensures serial { (which : ComPort) → serial_of which self.new ≡ serial_stepped which events.now (serial_of which self.old) }
        ensures rises { rises_of self.new ≡ rises_of self.old }
    {
        let lines = self.pulse(0);
        let lines = self.pulse(lines);
        let com1 = self.com1.tick();
        let com2 = self.com2.tick();
        let lines = self.events(events, lines);
        let lines = self.sample(lines);
        Edges { lines, com1, com2 }
    }

    /// Sets the timer's counter 0 as a one-shot that rises in the device step of so many ticks from now. The controllers, the
    /// other counters and the serial ports stay.
    pub fn set_one_shot(&mut self, ticks: u16)
        requires some { 1 ≤ ticks }
        requires most { ticks ≤ 32768 }
        ensures set { self.new ≡ one_shot_set ticks self.old }
        ensures left { ticks_left self.new ≡ Some ticks }
        ensures shot { IsShot self.new }
        ensures pair { self.new.pair ≡ self.old.pair }
        ensures counter1 { self.new.pit.counter1 ≡ self.old.pit.counter1 }
        ensures counter2 { self.new.pit.counter2 ≡ self.old.pit.counter2 }
        ensures serial { (which : ComPort) → serial_of which self.new ≡ serial_of which self.old }
        ensures sampled { IsSampled self.old → IsSampled self.new }
        ensures rises { rises_of self.new ≡ rises_of self.old }
    {
        let count = 2 * ticks as u32 - 1;
        self.pit.write(CONTROL_WORD, ONE_SHOT);
        self.pit.write(COUNTER_0, (count % 0x100) as u8);
        self.pit.write(COUNTER_0, (count / 0x100) as u8);
    }
}
