// Both chips and their ports.
ghost use Rattle.std.specs.Prelude.{◌≡◌, ◌<◌, IfSome, IsTrue, option_map};
ghost use Rattle.pic_8259.specs.Controllers.{latch_of, latch_with, request_of, after_acknowledge, vector_of, risen, written, read_of, new_pair, is_port, IsPair};
ghost use Rattle.pic_8259.specs.Boot.{IsBooted, booted, boot_written};

use crate::chip::{CASCADE, Chip, OCW1_NO_MASK};
use line_sets::with_line8;
use std::marker::Model;

/// The master's even port: ICW1, OCW2 and OCW3; a read gives IRR or ISR.
pub const MASTER_COMMAND: u16 = 0x20;
/// The master's odd port: ICW2 to ICW4, and OCW1, the mask; a read gives the mask.
pub const MASTER_DATA: u16 = 0x21;
/// The slave's even port.
pub const SLAVE_COMMAND: u16 = 0xA0;
/// The slave's odd port.
pub const SLAVE_DATA: u16 = 0xA1;

/// How many lines a chip has: from this line on they are the slave's.
pub const CHIP_LINES: u8 = 8;

// The initialisation words of the boot (8259A data sheet, "Initialization Command Words").
/// ICW1: in cascade mode, so ICW3 follows, and with ICW4.
const ICW1_CASCADE_WITH_ICW4: u8 = 0x11;
/// ICW2 of the master: the vector of line 0.
pub const FIRST_VECTOR: u8 = 0x20;
/// ICW2 of the slave: the vector of line 8.
const SLAVE_FIRST_VECTOR: u8 = 0x28;
/// ICW3 of the master: a slave stands at its line 2.
const ICW3_SLAVE_AT_CASCADE: u8 = 1 << CASCADE;
/// ICW3 of the slave: its number is that of the master's line.
const ICW3_SLAVE_NUMBER: u8 = CASCADE;
/// ICW4: 8086 mode, with ends of interrupt by OCW2.
const ICW4_8086: u8 = 0x01;

/// The master and the slave. Contracts see both chips' registers, of which `IsPair` holds at all times.
#[derive(Clone, Copy, Debug)]
pub struct Pair {
    master: Chip,
    slave: Chip,
}

impl Model for Pair {
    ghost use Rattle.pic_8259.specs.Controllers.{Controllers, IsPair};

    ghost Value = { Controllers };

    ghost view = { λ p. record { master = p.master; slave = p.slave } };

    ghost invariant = { λ p. IsPair (record { master = p.master; slave = p.slave }) };

    ghost inverse = { λ v. record { master = v.master; slave = v.slave } };
}

impl Pair {
    /// Before its initialisation: the bases are 0 and every line is masked.
    pub fn new() -> Pair
        ensures value { result ≡ new_pair }
        ensures pair { IsPair result }
    {
        Pair {
            master: Chip::new(),
            slave: Chip::new(),
        }
    }

    /// The line that an acknowledge would take; `None` exactly where the pair has no request.
    pub fn request(&self) -> Option<u8>
        ensures line { result ≡ request_of self.now }
        ensures below { IfSome result (λ n. n < 16) }
        ensures pair { IsPair self.now }
    {
        let of_slave = self.slave.request(false);
        match self.master.request(of_slave.is_some()) {
            Some(CASCADE) => match of_slave {
                Some(line) => Some(line + CHIP_LINES),
                None => None,
            },
            line => line,
        }
    }

    /// Takes the requested line into service and gives its vector; `None` exactly where the pair has no request, and then
    /// nothing changes (8259A data sheet, "Interrupt Sequence").
    #[tactic(auto, using(line_sets::proofs::LineSetLemmas::steps))]
    pub fn acknowledge(&mut self) -> Option<u8>
        ensures vector { result ≡ option_map (vector_of self.old) (request_of self.old) }
        ensures after { self.new ≡ after_acknowledge (request_of self.old) self.old }
        ensures before { IsPair self.old }
        ensures kept { IsPair self.new }
    {
        let line = self.request()?;
        if line < CHIP_LINES {
            self.master.acknowledge(line);
            Some(self.master.base + line)
        } else {
            self.slave.acknowledge(line - CHIP_LINES);
            self.master.isr = with_line8(self.master.isr, CASCADE);
            Some(self.slave.base + (line - CHIP_LINES))
        }
    }

    // Latches a rise of a line.
    fn latch(&mut self, line: u8)
        requires { line < 16 }
        ensures latched { self.new ≡ risen line self.old }
        ensures before { IsPair self.old }
        ensures kept { IsPair self.new }
    {
        if line == CASCADE {
            // The cascade's line latches nothing.
        } else if line < CHIP_LINES {
            self.master.irr = with_line8(self.master.irr, line);
        } else {
            self.slave.irr = with_line8(self.slave.irr, line - CHIP_LINES);
        }
    }

    /// A rise of a line, which is latched until the line is acknowledged or ICW1 is written to its chip. Line 2 is the
    /// cascade and is ignored. A pair as after the boot stays one.
    pub fn edge(&mut self, line: u8)
        requires { line < 16 }
        ensures latched { self.new ≡ risen line self.old }
        ensures latch { latch_of self.new ≡ latch_with line (latch_of self.old) }
        ensures booted { IsBooted self.old → IsBooted self.new }
        ensures before { IsPair self.old }
        ensures kept { IsPair self.new }
    {
        self.latch(line)
    }

    /// A write to one of the four ports.
    pub fn write(&mut self, port: u16, value: u8)
        requires { IsTrue (is_port port) }
        ensures registers { self.new ≡ written port value self.old }
        ensures before { IsPair self.old }
        ensures kept { IsPair self.new }
    {
        match port {
            MASTER_COMMAND => self.master.write_even(value),
            MASTER_DATA => self.master.write_odd(value),
            SLAVE_COMMAND => self.slave.write_even(value),
            _ => self.slave.write_odd(value),
        }
    }

    /// A read of one of the four ports, which changes nothing.
    pub fn read(&self, port: u16) -> u8
        requires { IsTrue (is_port port) }
        ensures { result ≡ read_of port self.now }
    {
        match port {
            MASTER_COMMAND => self.master.read_even(self.slave.request(false).is_some()),
            MASTER_DATA => self.master.imr,
            SLAVE_COMMAND => self.slave.read_even(false),
            _ => self.slave.imr,
        }
    }

    /// The ten writes of the boot: vectors from 20h on for the master and from 28h on for the slave, the cascade at line 2,
    /// no line masked. What was latched and in service is dropped.
    pub fn initialize(&mut self)
        ensures writes { self.new ≡ boot_written self.old }
        ensures booted { self.new ≡ booted 0 0 }
        ensures kept { IsPair self.new }
    {
        self.write(MASTER_COMMAND, ICW1_CASCADE_WITH_ICW4);
        self.write(MASTER_DATA, FIRST_VECTOR);
        self.write(MASTER_DATA, ICW3_SLAVE_AT_CASCADE);
        self.write(MASTER_DATA, ICW4_8086);
        self.write(MASTER_DATA, OCW1_NO_MASK);
        self.write(SLAVE_COMMAND, ICW1_CASCADE_WITH_ICW4);
        self.write(SLAVE_DATA, SLAVE_FIRST_VECTOR);
        self.write(SLAVE_DATA, ICW3_SLAVE_NUMBER);
        self.write(SLAVE_DATA, ICW4_8086);
        self.write(SLAVE_DATA, OCW1_NO_MASK);
    }
}
