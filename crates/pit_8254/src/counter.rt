// One counter of the 8254.

ghost use Rattle.std.specs.Prelude.{◌≡◌, ◌≤◌, ◌<◌, ◌-◌, ◌%◌, ◌/◌};
ghost use Rattle.pit_8254.specs.Counter.{full_count, out_at, out_of, held_at, held_of, cycle_begun, pulsed, completed, half_written_by, byte_written, mode_of, controlled, shown, byte_read, after_read, new_counter};

// The control word (8254 data sheet, "Control Word Format").
/// RW1 and RW0 in bits 5 and 4: which bytes of a count are read and written.
const RW_SHIFT: u8 = 4;

const RW_MASK: u8 = 0x03;
/// RW 0: the counter latch command.
const RW_LATCH: u8 = 0x00;
/// RW 1: the least significant byte alone.
const RW_LSB: u8 = 0x01;
/// RW 2: the most significant byte alone.
const RW_MSB: u8 = 0x02;
/// M2, M1 and M0 in bits 3 to 1: the mode.
const MODE_SHIFT: u8 = 1;

const MODE_MASK: u8 = 0x07;
/// In modes 2 and 3 M2 is ignored.
const MODE_MASK_PERIODIC: u8 = 0x03;
/// Mode 0: interrupt on terminal count.
const MODE_TERMINAL_COUNT: u8 = 0x00;
/// Mode 2: rate generator.
const MODE_RATE_GENERATOR: u8 = 0x02;
/// Mode 3: square wave mode.
const MODE_SQUARE_WAVE: u8 = 0x03;
/// Bit 0: counting in BCD.
const BCD: u8 = 0x01;

/// A whole turn of the counting element of 16 bits.
const TURN: u32 = 0x1_0000;

/// What OUT does (8254 data sheet, "Mode Definitions").
#[derive(Clone, Copy, Debug, PartialEq, Eq)]
pub enum Mode {
    /// No control word was written: OUT is low, and nothing counts.
    Unset,
    /// Mode 0, interrupt on terminal count: OUT rises at the end of the count.
    TerminalCount,
    /// Mode 2, rate generator: OUT is low for one pulse in each cycle.
    RateGenerator,
    /// Mode 3, square wave: OUT is high for the larger half of each cycle.
    SquareWave,
}

/// Which bytes of a count are read and written (RW).
#[derive(Clone, Copy, Debug, PartialEq, Eq)]
pub enum Access {
    LowByte,
    HighByte,
    LowThenHigh,
}

/// The state of one counter.
#[derive(Clone, Copy, Debug)]
pub struct Counter {
    pub mode: Mode,
    pub access: Access,
    /// The first byte of a count of two bytes.
    pub low: Option<u8>,
    /// The count that runs, as written; none while counting is stopped.
    pub count: Option<u16>,
    /// In modes 2 and 3 the count that the next cycle takes.
    pub next: Option<u16>,
    /// The CLK pulses since the count was complete, in modes 2 and 3 since the running cycle began.
    pub pulses: u32,
    /// The count that a latch command caught.
    pub latch: Option<u16>,
    /// Whether a read of a count of two bytes gives the second one.
    pub high_byte_next: bool,
}

// The count that a written count stands for.
fn full(mode: Mode, count: u16) -> u32
    ensures value { result ≡ full_count mode count }
    ensures some { 1 ≤ result }
    ensures most { result ≤ 65536 }
{
    match (mode, count) {
        (_, 0) => TURN,
        (Mode::TerminalCount, count) => count as u32,
        (_, 1) => 2,
        (_, count) => count as u32,
    }
}

// The place in its cycle of so many pulses. What a counter keeps stays within the first cycle, so that nothing is divided there.
fn place(pulses: u32, count: u32) -> u32
    requires begun { 1 ≤ pulses }
    requires some { 1 ≤ count }
    ensures { result ≡ (pulses - 1) % count }
{
    let after_first = pulses - 1;
    if after_first < count {
        after_first
    } else {
        after_first % count
    }
}

// OUT after so many pulses.
fn out_after(mode: Mode, count: u32, pulses: u32) -> bool
    requires some { 1 ≤ count }
    requires most { count ≤ 65536 }
    ensures { result ≡ out_at mode count pulses }
{
    match mode {
        Mode::Unset => false,
        Mode::TerminalCount => pulses >= count + 1,
        Mode::RateGenerator => pulses == 0 || place(pulses, count) != count - 1,
        Mode::SquareWave => pulses == 0 || 2 * place(pulses, count) < count,
    }
}

// What the counting element holds after so many pulses.
fn held_after(mode: Mode, count: u32, pulses: u32) -> u16
    requires some { 1 ≤ count }
    requires most { count ≤ 65536 }
    ensures { result ≡ held_at mode count pulses }
{
    if pulses == 0 {
        return 0;
    }
    match mode {
        Mode::TerminalCount => ((count + TURN - (pulses - 1) % TURN) % TURN) as u16,
        Mode::RateGenerator => ((count - place(pulses, count)) % TURN) as u16,
        Mode::Unset | Mode::SquareWave => 0,
    }
}

// The mode of a control word; none where the word is ignored.
fn mode_asked(word: u8) -> Option<Mode>
    ensures { result ≡ mode_of word }
{
    let mode = (word >> MODE_SHIFT) & MODE_MASK;
    if word & BCD != 0 {
        None
    } else if mode == MODE_TERMINAL_COUNT {
        Some(Mode::TerminalCount)
    } else if mode & MODE_MASK_PERIODIC == MODE_RATE_GENERATOR {
        Some(Mode::RateGenerator)
    } else if mode & MODE_MASK_PERIODIC == MODE_SQUARE_WAVE {
        Some(Mode::SquareWave)
    } else {
        None
    }
}

impl Counter {
    /// A counter before its control word.
    pub fn new() -> Counter
        ensures { result ≡ new_counter }
    {
        Counter {
            mode: Mode::Unset,
            access: Access::LowThenHigh,
            low: None,
            count: None,
            next: None,
            pulses: 0,
            latch: None,
            high_byte_next: false,
        }
    }

    /// The level of OUT.
    pub fn out(&self) -> bool
        ensures { result ≡ out_of self.now }
    {
        match self.count {
            None => out_after(self.mode, TURN, 0),
            Some(count) => out_after(self.mode, full(self.mode, count), self.pulses),
        }
    }

    /// What the counting element holds.
    pub fn held(&self) -> u16
        ensures { result ≡ held_of self.now }
    {
        match self.count {
            None => 0,
            Some(count) => held_after(self.mode, full(self.mode, count), self.pulses),
        }
    }

    // The first pulse of a cycle.
    fn begin_cycle(&mut self)
        ensures { self.new ≡ cycle_begun self.old }
    {
        self.pulses = 1;
        if let Some(count) = self.next {
            self.count = Some(count);
            self.next = None;
        }
    }

    /// A CLK pulse.
    pub fn pulse(&mut self)
        ensures { self.new ≡ pulsed self.old }
    {
        let Some(count) = self.count else { return };
        let count = full(self.mode, count);
        match self.mode {
            Mode::Unset => {}
            Mode::TerminalCount => {
                self.pulses = if self.pulses < count + TURN {
                    self.pulses + 1
                } else {
                    self.pulses - (TURN - 1)
                };
            }
            Mode::RateGenerator | Mode::SquareWave => {
                if self.pulses < count {
                    self.pulses += 1;
                } else {
                    self.begin_cycle();
                }
            }
        }
    }

    // A count is complete.
    fn complete(&mut self, count: u16)
        ensures { self.new ≡ completed count self.old }
    {
        if self.mode == Mode::TerminalCount {
            self.count = Some(count);
            self.pulses = 0;
        } else if self.pulses == 0 {
            self.count = Some(count);
        } else {
            self.next = Some(count);
        }
    }

    // A byte of a count of two bytes.
    fn write_half(&mut self, value: u8)
        ensures { self.new ≡ half_written_by self.old.low value self.old }
    {
        match self.low {
            Some(low) => {
                self.low = None;
                self.complete(low as u16 + 0x100 * value as u16);
            }
            None => {
                self.low = Some(value);
                if self.mode == Mode::TerminalCount {
                    self.count = None;
                    self.pulses = 0;
                }
            }
        }
    }

    /// A write to the counter's port.
    pub fn write(&mut self, value: u8)
        ensures { self.new ≡ byte_written value self.old }
    {
        if self.mode == Mode::Unset {
            return;
        }
        match self.access {
            Access::LowByte => self.complete(value as u16),
            Access::HighByte => self.complete(0x100 * value as u16),
            Access::LowThenHigh => self.write_half(value),
        }
    }

    /// A control word for this counter.
    pub fn control(&mut self, word: u8)
        ensures { self.new ≡ controlled word self.old }
    {
        let Some(mode) = mode_asked(word) else { return };
        match (word >> RW_SHIFT) & RW_MASK {
            RW_LATCH => {
                if self.latch.is_none() {
                    self.latch = Some(self.held());
                }
            }
            RW_LSB => self.program(mode, Access::LowByte),
            RW_MSB => self.program(mode, Access::HighByte),
            _ => self.program(mode, Access::LowThenHigh),
        }
    }

    // A new mode, which drops the count, the latch and the turn.
    fn program(&mut self, mode: Mode, access: Access)
        ensures { self.new ≡ record new_counter { mode = mode; access = access } }
    {
        *self = Counter::new();
        self.mode = mode;
        self.access = access;
    }

    // The count that a read gives.
    fn shown(&self) -> u16
        ensures { result ≡ shown self.now }
    {
        match self.latch {
            Some(count) => count,
            None => self.held(),
        }
    }

    /// A read of the counter's port.
    pub fn read(&mut self) -> u8
        ensures value { result ≡ byte_read self.old }
        ensures after { self.new ≡ after_read self.old }
    {
        let shown = self.shown();
        match self.access {
            Access::LowByte => {
                self.latch = None;
                (shown % 0x100) as u8
            }
            Access::HighByte => {
                self.latch = None;
                (shown / 0x100) as u8
            }
            Access::LowThenHigh => {
                if self.high_byte_next {
                    self.latch = None;
                    self.high_byte_next = false;
                    (shown / 0x100) as u8
                } else {
                    self.high_byte_next = true;
                    (shown % 0x100) as u8
                }
            }
        }
    }
}
