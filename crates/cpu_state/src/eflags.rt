// The flags.
ghost use Rattle.std.specs.Prelude.{⊤, ◌≡◌, map};
ghost use Rattle.cpu_state.specs.Eflags.{flags_of, word_of, with_interrupt, weight as weight_of, flags_in, bits_of, named_flags, named_bits};

use bitflags::{Flag, Flags};

/// The flags that are kept of EFLAGS (Intel 80386 manual, section 2.3.4). In the word of EFLAGS they are the bits 0, 2,
/// 4, 6, 7, 9, 10 and 11; bit 1 is always set, and all others are clear.
#[derive(Clone, Copy, PartialEq, Eq, Debug)]
pub struct Eflags {
    pub carry: bool,
    pub parity: bool,
    pub adjust: bool,
    pub zero: bool,
    pub sign: bool,
    pub interrupt: bool,
    pub direction: bool,
    pub overflow: bool,
}

/// The bits of the flags in the word.
const CARRY_BIT: u32 = 1 << 0;

const RESERVED_BIT: u32 = 1 << 1;

const PARITY_BIT: u32 = 1 << 2;

const ADJUST_BIT: u32 = 1 << 4;

const ZERO_BIT: u32 = 1 << 6;

const SIGN_BIT: u32 = 1 << 7;

const INTERRUPT_BIT: u32 = 1 << 9;

const DIRECTION_BIT: u32 = 1 << 10;

const OVERFLOW_BIT: u32 = 1 << 11;

// What a flag is worth in the word.
fn weight(flag: bool, bit: u32) -> u32
    ensures { result ≡ weight_of flag bit }
{
    if flag { bit } else { 0 }
}

// What a flag is worth among the bits of the set.
fn set_weight(flag: bool, bit: u8) -> u8
    ensures { result ≡ weight_of flag bit }
{
    if flag { bit } else { 0 }
}

impl Eflags {
    /// The flags of a word.
    pub fn from_word(word: u32) -> Eflags
        ensures { result ≡ flags_of word }
    {
        Eflags {
            carry: word / CARRY_BIT % 2 == 1,
            parity: word / PARITY_BIT % 2 == 1,
            adjust: word / ADJUST_BIT % 2 == 1,
            zero: word / ZERO_BIT % 2 == 1,
            sign: word / SIGN_BIT % 2 == 1,
            interrupt: word / INTERRUPT_BIT % 2 == 1,
            direction: word / DIRECTION_BIT % 2 == 1,
            overflow: word / OVERFLOW_BIT % 2 == 1,
        }
    }

    /// The word of the flags.
    pub fn word(self) -> u32
        ensures { result ≡ word_of self }
    {
        RESERVED_BIT
            + weight(self.carry, CARRY_BIT)
            + weight(self.parity, PARITY_BIT)
            + weight(self.adjust, ADJUST_BIT)
            + weight(self.zero, ZERO_BIT)
            + weight(self.sign, SIGN_BIT)
            + weight(self.interrupt, INTERRUPT_BIT)
            + weight(self.direction, DIRECTION_BIT)
            + weight(self.overflow, OVERFLOW_BIT)
    }

    /// The same flags with another interrupt flag.
    pub fn with_interrupt(self, flag: bool) -> Eflags
        ensures { result ≡ with_interrupt flag self }
    {
        Eflags {
            interrupt: flag,
            ..self
        }
    }

    const NONE: Eflags = Eflags {
        carry: false,
        parity: false,
        adjust: false,
        zero: false,
        sign: false,
        interrupt: false,
        direction: false,
        overflow: false,
    };

    pub const FLAGS: &'static [Flag<Eflags>] = &[
        Flag {
            name: "CF",
            value: Eflags {
                carry: true,
                ..Eflags::NONE
            },
        },
        Flag {
            name: "PF",
            value: Eflags {
                parity: true,
                ..Eflags::NONE
            },
        },
        Flag {
            name: "AF",
            value: Eflags {
                adjust: true,
                ..Eflags::NONE
            },
        },
        Flag {
            name: "ZF",
            value: Eflags {
                zero: true,
                ..Eflags::NONE
            },
        },
        Flag {
            name: "SF",
            value: Eflags {
                sign: true,
                ..Eflags::NONE
            },
        },
        Flag {
            name: "IF",
            value: Eflags {
                interrupt: true,
                ..Eflags::NONE
            },
        },
        Flag {
            name: "DF",
            value: Eflags {
                direction: true,
                ..Eflags::NONE
            },
        },
        Flag {
            name: "OF",
            value: Eflags {
                overflow: true,
                ..Eflags::NONE
            },
        },
    ];
}

/// The flags as a set: CF, PF, AF, ZF, SF, IF, DF and OF are its bits 0 to 7, and it has no other. So every call of the
/// trait is exact; bit 1 of EFLAGS is no flag, and `word` alone adds it.
impl Flags for Eflags {
    type Bits = u8;

    ghost exact = { ⊤ };

    ghost table = { named_bits };

    ghost set_of = { bits_of };

    fn flags<'a>() -> &'a [Flag<Eflags>]
        ensures named { map (λ f. (f.name.now, f.value)) result.now ≡ named_flags }
        ensures bits { map (λ f. (f.name.now, bits_of f.value)) result.now ≡ named_bits }
    {
        Eflags::FLAGS
    }

    fn bits(&self) -> u8
        ensures { result ≡ bits_of self.now }
    {
        set_weight(self.carry, 1)
            + set_weight(self.parity, 2)
            + set_weight(self.adjust, 4)
            + set_weight(self.zero, 8)
            + set_weight(self.sign, 16)
            + set_weight(self.interrupt, 32)
            + set_weight(self.direction, 64)
            + set_weight(self.overflow, 128)
    }

    fn from_bits_retain(bits: u8) -> Eflags
        ensures flags { result ≡ flags_in bits }
        ensures bits { bits_of result ≡ bits }
    {
        Eflags {
            carry: bits % 2 == 1,
            parity: bits / 2 % 2 == 1,
            adjust: bits / 4 % 2 == 1,
            zero: bits / 8 % 2 == 1,
            sign: bits / 16 % 2 == 1,
            interrupt: bits / 32 % 2 == 1,
            direction: bits / 64 % 2 == 1,
            overflow: bits / 128 % 2 == 1,
        }
    }
}
