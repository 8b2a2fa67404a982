// What bytes mean.
ghost use Rattle.std.specs.Prelude.{◌≡◌};
ghost use Rattle.i386_decode.specs.InPlace.{unfilled};

use cpu_state::{Op, Width};

/// How a string instruction is repeated (Intel 80386 manual, section 3.6.1).
#[derive(Clone, Copy, PartialEq, Eq, Debug)]
pub enum Repeat {
    /// no repeat prefix
    Once,
    /// REP, REPE
    WhileEqual,
    /// REPNE
    WhileUnequal,
}

/// Where an operand of memory stands (section 2.5.3.2): the sum, modulo 2^32, of a base register, an index register
/// shifted left by 0 to 3, and a displacement.
#[derive(Clone, Copy, PartialEq, Eq, Debug)]
pub struct Address {
    pub base: Option<u8>,
    /// the register and its shift
    pub index: Option<(u8, u8)>,
    pub displacement: u32,
}

/// An operand (section 2.5). Registers 0 to 7 are EAX ECX EDX EBX ESP EBP ESI EDI, their low halves at width 16, and AL CL
/// DL BL AH CH DH BH at width 8.
#[derive(Clone, Copy, PartialEq, Eq, Debug)]
pub enum Operand {
    Absent,
    Register(u8),
    Memory(Address),
    /// an immediate, a displacement, a condition, a port, an interrupt's number or RET's count, extended to 32 bits
    Immediate(u32),
}

/// An instruction: its operation, the width of its operands, the operands, the target first, and its repeat.
///
/// Jcc and SETcc have their condition as second operand. MOVZX and MOVSX have the source's width, 8 or 16, as third. A
/// shift by CL has register 1 as count, a port in DX is register 2, and a RET without a count has 0.
#[derive(Clone, Copy, PartialEq, Eq, Debug)]
pub struct Form {
    pub op: Op,
    pub width: Width,
    pub first: Operand,
    pub second: Operand,
    pub third: Operand,
    pub repeat: Repeat,
}

impl Form {
    /// A form to be filled: HLT, which has no operands.
    pub fn new() -> Form
        ensures { result ≡ unfilled }
    {
        Form {
            op: Op::Hlt,
            width: Width::W32,
            first: Operand::Absent,
            second: Operand::Absent,
            third: Operand::Absent,
            repeat: Repeat::Once,
        }
    }
}

/// What bytes begin with, where the form stands in a place of its own.
#[derive(Clone, Copy, PartialEq, Eq, Debug)]
pub enum Extent {
    /// a spelling, of so many bytes
    Whole(u8),
    /// no spelling, however they go on
    Undefined,
    /// the beginning of a spelling
    Short,
}

/// What bytes begin with.
#[derive(Clone, Copy, PartialEq, Eq, Debug)]
pub enum Decoded {
    /// a spelling of this form, and how many bytes it has
    Form(Form, u8),
    /// no spelling, however they go on
    Undefined,
    /// the beginning of a spelling
    Short,
}
