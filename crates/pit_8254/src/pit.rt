// The three counters and their ports.

ghost use Rattle.std.specs.Prelude.{◌≡◌, IsTrue};
ghost use Rattle.pit_8254.specs.Timer.{new_timer, is_port, control_written, written, read_of, after_read_of, all_pulsed, outs};

use crate::counter::Counter;
use std::marker::Model;

/// The port of counter 0.
pub const COUNTER_0: u16 = 0x40;
/// The port of counter 1.
pub const COUNTER_1: u16 = 0x41;
/// The port of counter 2.
pub const COUNTER_2: u16 = 0x42;
/// The port of the control word, which can't be read.
pub const CONTROL_WORD: u16 = 0x43;

/// SC1 and SC0 in bits 7 and 6 of a control word: the counter that it is for.
const SELECT_SHIFT: u8 = 6;

const SELECT_COUNTER_0: u8 = 0x00;

const SELECT_COUNTER_1: u8 = 0x01;

const SELECT_COUNTER_2: u8 = 0x02;

/// What a read of the control word's port gives.
const NOTHING: u8 = 0xFF;

/// An 8254 with its gates high. Contracts see the three counters.
#[derive(Clone, Copy, Debug)]
pub struct Pit {
    counter0: Counter,
    counter1: Counter,
    counter2: Counter,
}

impl Model for Pit {
    ghost use Rattle.pit_8254.specs.Timer.{Timer};

    ghost Value = { Timer };

    ghost view = { λ p. record { counter0 = p.counter0; counter1 = p.counter1; counter2 = p.counter2 } };

    ghost inverse = { λ v. record { counter0 = v.counter0; counter1 = v.counter1; counter2 = v.counter2 } };
}

impl Pit {
    /// Before the first control word: all outputs are low.
    pub fn new() -> Pit
        ensures { result ≡ new_timer }
    {
        Pit {
            counter0: Counter::new(),
            counter1: Counter::new(),
            counter2: Counter::new(),
        }
    }

    // A control word.
    fn control(&mut self, word: u8)
        ensures { self.new ≡ control_written word self.old }
    {
        match word >> SELECT_SHIFT {
            SELECT_COUNTER_0 => self.counter0.control(word),
            SELECT_COUNTER_1 => self.counter1.control(word),
            SELECT_COUNTER_2 => self.counter2.control(word),
            _ => {}
        }
    }

    /// A write to one of the four ports.
    pub fn write(&mut self, port: u16, value: u8)
        requires { IsTrue (is_port port) }
        ensures { self.new ≡ written port value self.old }
    {
        match port {
            COUNTER_0 => self.counter0.write(value),
            COUNTER_1 => self.counter1.write(value),
            COUNTER_2 => self.counter2.write(value),
            _ => self.control(value),
        }
    }

    /// A read of one of the four ports.
    pub fn read(&mut self, port: u16) -> u8
        requires { IsTrue (is_port port) }
        ensures value { result ≡ read_of port self.old }
        ensures after { self.new ≡ after_read_of port self.old }
    {
        match port {
            COUNTER_0 => self.counter0.read(),
            COUNTER_1 => self.counter1.read(),
            COUNTER_2 => self.counter2.read(),
            _ => NOTHING,
        }
    }

    /// One CLK pulse; the levels of the three OUTs after it.
    pub fn pulse(&mut self) -> [bool; 3]
        ensures outs { result ≡ outs (all_pulsed self.old) }
        ensures after { self.new ≡ all_pulsed self.old }
    {
        self.counter0.pulse();
        self.counter1.pulse();
        self.counter2.pulse();
        [
            self.counter0.out(),
            self.counter1.out(),
            self.counter2.out(),
        ]
    }
}
