// The registers.
ghost use Rattle.std.specs.Prelude.{◌≡◌};
ghost use Rattle.cpu_state.specs.Registers.{first_registers};

use crate::Eflags;

/// The numbers of the general registers (Intel 80386 manual, section 2.3.1, and the reg field of table 17-2).
pub const EAX: usize = 0;

pub const ECX: usize = 1;

pub const EDX: usize = 2;

pub const EBX: usize = 3;

pub const ESP: usize = 4;

pub const EBP: usize = 5;

pub const ESI: usize = 6;

pub const EDI: usize = 7;

/// The registers of the processor (Intel 80386 manual, section 2.3): the general ones by their numbers, the instruction
/// pointer and the flags.
#[derive(Clone, Copy, PartialEq, Eq, Debug)]
pub struct Registers {
    pub general: [u32; 8],
    pub eip: u32,
    pub eflags: Eflags,
}

/// The registers of an activity that isn't on the processor.
pub type Context = Registers;

impl Registers {
    /// The registers of an activity that begins at `eip` with its stack below `esp`: all others are 0, EFLAGS is 2.
    pub fn new(eip: u32, esp: u32) -> Registers
        ensures { result ≡ first_registers eip esp }
    {
        let mut general = [0; 8];
        general[ESP] = esp;
        Registers {
            general,
            eip,
            eflags: Eflags::from_word(2),
        }
    }
}

/// A kind of access to memory.
#[derive(Clone, Copy, PartialEq, Eq, Debug)]
pub enum Access {
    Load,
    Store,
    Fetch,
}

/// The instructions that work on the hard interrupt flag or stop the processor.
#[derive(Clone, Copy, PartialEq, Eq, Debug)]
pub enum Privileged {
    Cli,
    Sti,
    Iret,
    Pushf,
    Popf,
    Hlt,
}
