// One 8259A: its registers and command words.
ghost use Rattle.std.specs.Prelude.{◌≡◌, ◌<◌, IfSome};
ghost use Rattle.pic_8259.specs.Chip.{is_set, standing, chip_request, taken, even_written, initialized, chosen, service_ended, odd_written, after_icw2, even_read, new_chip};

use line_sets::{lowest8, minus8, with_line8, without_line8};

// Initialization Command Word 1, at the even port (8259A data sheet, "Initialization Command Words").
/// D4 marks ICW1.
const ICW1: u8 = 0x10;
/// SNGL: a chip alone; clear, ICW3 follows.
const ICW1_SNGL: u8 = 0x02;
/// IC4: ICW4 follows.
const ICW1_IC4: u8 = 0x01;

// Initialization Command Word 2, at the odd port.
/// T7 to T3: the upper five bits of the chip's vectors.
const ICW2_VECTORS: u8 = 0xF8;

// Operation Command Word 1, at the odd port where no initialisation word is awaited: the mask.
/// No line is masked.
pub const OCW1_NO_MASK: u8 = 0x00;

// Operation Command Word 2, at the even port (8259A data sheet, "Operation Control Words").
/// R, SL and EOI.
const OCW2_COMMAND: u8 = 0xE0;
/// The non-specific end of interrupt.
const OCW2_NONSPECIFIC_EOI: u8 = 0x20;
/// The specific end of interrupt, of the line in L2 to L0.
pub const OCW2_SPECIFIC_EOI: u8 = 0x60;
/// L2 to L0.
const OCW2_LEVEL: u8 = 0x07;

// Operation Command Word 3, at the even port.
/// D3 marks OCW3.
const OCW3: u8 = 0x08;
/// RR and RIS.
const OCW3_READ: u8 = 0x03;
/// The next reads give IRR.
const OCW3_READ_IRR: u8 = 0x02;
/// The next reads give ISR.
const OCW3_READ_ISR: u8 = 0x03;

/// The line of the master at which the slave stands; it is never latched.
pub const CASCADE: u8 = 2;

/// What the odd port awaits (8259A data sheet, "Initialization Sequence").
#[derive(Clone, Copy, Debug, PartialEq, Eq)]
pub enum Step {
    /// No initialisation word: a write is OCW1, the mask.
    Ready,
    /// ICW2; then ICW3 and ICW4 where they were asked for.
    AwaitsIcw2 { icw3: bool, icw4: bool },
    /// ICW3; then ICW4 where it was asked for.
    AwaitsIcw3 { icw4: bool },
    /// ICW4.
    AwaitsIcw4,
}

/// Which register a read of the even port gives (OCW3).
#[derive(Clone, Copy, Debug, PartialEq, Eq)]
pub enum ReadChoice {
    Irr,
    Isr,
}

/// The registers of one 8259A. In the three sets of lines bit n is line n of the chip.
#[derive(Clone, Copy, Debug, PartialEq, Eq)]
pub struct Chip {
    /// Interrupt Request Register: the latched rises.
    pub irr: u8,
    /// In-Service Register: the lines that were acknowledged and not yet ended.
    pub isr: u8,
    /// Interrupt Mask Register: a set bit masks its line.
    pub imr: u8,
    /// The vector of the chip's line 0.
    pub base: u8,
    pub step: Step,
    pub read_choice: ReadChoice,
}

// Whether a bit of a command word is set.
fn is_set(word: u8, flag: u8) -> bool
    ensures { result ≡ is_set word flag }
{
    word & flag != 0
}

// What is awaited when ICW2 has come, by whether ICW3 and ICW4 were asked for.
fn after_icw2(icw3: bool, icw4: bool) -> Step
    ensures { result ≡ after_icw2 icw3 icw4 }
{
    if icw3 {
        Step::AwaitsIcw3 { icw4 }
    } else if icw4 {
        Step::AwaitsIcw4
    } else {
        Step::Ready
    }
}

impl Chip {
    /// Before its initialisation.
    pub(crate) fn new() -> Chip
        ensures { result ≡ new_chip }
    {
        Chip {
            irr: 0,
            isr: 0,
            imr: 0xFF,
            base: 0,
            step: Step::Ready,
            read_choice: ReadChoice::Irr,
        }
    }

    /// The requests, with the cascade's line where the slave requests.
    fn standing(&self, cascade: bool) -> u8
        ensures { result ≡ standing cascade self.now }
    {
        if cascade {
            with_line8(self.irr, CASCADE)
        } else {
            self.irr
        }
    }

    /// The line that the chip requests.
    pub(crate) fn request(&self, cascade: bool) -> Option<u8>
        ensures line { result ≡ chip_request cascade self.now }
        ensures below { IfSome result (λ n. n < 8) }
    {
        let requested = lowest8(minus8(self.standing(cascade), self.imr));
        let serviced = lowest8(self.isr);
        match (requested, serviced) {
            (Some(line), Some(other)) => if line < other { Some(line) } else { None },
            (requested, None) => requested,
            (None, _) => None,
        }
    }

    /// Takes a line into service.
    pub(crate) fn acknowledge(&mut self, line: u8)
        requires { line < 8 }
        ensures { self.new ≡ taken line self.old }
    {
        self.irr = without_line8(self.irr, line);
        self.isr = with_line8(self.isr, line);
    }

    // ICW1.
    fn initialize(&mut self, word: u8)
        ensures { self.new ≡ initialized word self.old }
    {
        self.irr = 0;
        self.isr = 0;
        self.imr = 0;
        self.read_choice = ReadChoice::Irr;
        self.step = Step::AwaitsIcw2 {
            icw3: !is_set(word, ICW1_SNGL),
            icw4: is_set(word, ICW1_IC4),
        };
    }

    // OCW3.
    fn choose_register(&mut self, word: u8)
        ensures { self.new ≡ chosen word self.old }
    {
        match word & OCW3_READ {
            OCW3_READ_IRR => self.read_choice = ReadChoice::Irr,
            OCW3_READ_ISR => self.read_choice = ReadChoice::Isr,
            _ => {}
        }
    }

    // OCW2.
    fn end_service(&mut self, word: u8)
        ensures { self.new ≡ service_ended word self.old }
    {
        match word & OCW2_COMMAND {
            OCW2_NONSPECIFIC_EOI => {
                if let Some(line) = lowest8(self.isr) {
                    self.isr = without_line8(self.isr, line);
                }
            }
            OCW2_SPECIFIC_EOI => self.isr = without_line8(self.isr, word & OCW2_LEVEL),
            _ => {}
        }
    }

    /// A write to the even port: ICW1, OCW2 or OCW3.
    pub(crate) fn write_even(&mut self, word: u8)
        ensures { self.new ≡ even_written word self.old }
    {
        if is_set(word, ICW1) {
            self.initialize(word);
        } else if is_set(word, OCW3) {
            self.choose_register(word);
        } else {
            self.end_service(word);
        }
    }

    /// A write to the odd port: ICW2 to ICW4 while they are awaited, else OCW1.
    pub(crate) fn write_odd(&mut self, word: u8)
        ensures { self.new ≡ odd_written word self.old }
    {
        match self.step {
            Step::Ready => self.imr = word,
            Step::AwaitsIcw2 { icw3, icw4 } => {
                self.base = word & ICW2_VECTORS;
                self.step = after_icw2(icw3, icw4);
            }
            Step::AwaitsIcw3 { icw4 } => self.step = after_icw2(false, icw4),
            Step::AwaitsIcw4 => self.step = Step::Ready,
        }
    }

    /// What a read of the even port gives.
    pub(crate) fn read_even(&self, cascade: bool) -> u8
        ensures { result ≡ even_read cascade self.now }
    {
        match self.read_choice {
            ReadChoice::Irr => self.standing(cascade),
            ReadChoice::Isr => self.isr,
        }
    }
}
