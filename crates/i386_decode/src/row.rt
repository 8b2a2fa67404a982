// The rows of the opcode map.

use cpu_state::Op;

/// The width of an operation: 8, or 32 and under prefix 66 16.
#[derive(Clone, Copy)]
pub enum Size {
    Byte,
    Full,
}

/// Whether a ModRM byte follows the opcode, and whether it may name a register.
#[derive(Clone, Copy)]
pub enum ModRm {
    Without,
    Either,
    MemoryOnly,
}

/// Where an operand is found.
#[derive(Clone, Copy)]
pub enum Place {
    Nothing,
    /// the register of the reg field
    RegField,
    /// the register or memory of the mod and r/m fields
    RmField,
    /// a register that the opcode itself names
    Fixed(u8),
    /// a number that the opcode itself names
    Number(u32),
    /// the immediate, or the displacement of a jump
    Immediate,
    /// memory at the address that stands in the immediate's place
    Offset,
}

/// How many bytes an immediate has, and whether it is extended with its sign.
#[derive(Clone, Copy)]
pub enum ImmediateKind {
    NoBytes,
    OneByte,
    SignedByte,
    TwoBytes,
    /// as many as the operand size
    FullWidth,
    FourBytes,
}

/// A row of the opcode map.
#[derive(Clone, Copy)]
pub struct Row {
    pub op: Op,
    pub size: Size,
    pub modrm: ModRm,
    pub first: Place,
    pub second: Place,
    pub third: Place,
    pub immediate: ImmediateKind,
    /// whether prefix 66 before it begins no spelling
    pub barred: bool,
    /// whether a repeat prefix counts
    pub string: bool,
}

/// The opcodes whose row depends on the reg field, by the names of the opcode map.
#[derive(Clone, Copy)]
pub enum Group {
    /// group 1
    ImmediateByte,
    ImmediateFull,
    ImmediateSigned,
    Pop,
    /// group 2
    ShiftByteImmediate,
    ShiftFullImmediate,
    ShiftByteOne,
    ShiftFullOne,
    ShiftByteCl,
    ShiftFullCl,
    MovByte,
    MovFull,
    /// group 3
    UnaryByte,
    UnaryFull,
    /// group 4
    IncDecByte,
    /// group 5
    Indirect,
    /// group 8
    BitTest,
}

/// What stands at an opcode.
#[derive(Clone, Copy)]
pub enum Entry {
    Invalid,
    One(Row),
    Many(Group),
}

/// A row of the map: operation, size, ModRM byte, the three operands, the immediate, and `barred` or `string`.
macro_rules! table_row {
    (@ $op:ident $size:ident $modrm:ident, $first:expr, $second:expr, $third:expr, $immediate:ident, $barred:expr, $string:expr) => {
        Row {
            op: Op::$op,
            size: Size::$size,
            modrm: ModRm::$modrm,
            first: $first,
            second: $second,
            third: $third,
            immediate: ImmediateKind::$immediate,
            barred: $barred,
            string: $string,
        }
    };
    ($op:ident $size:ident $modrm:ident, $first:expr, $second:expr, $third:expr, $immediate:ident) => {
        table_row!(@ $op $size $modrm, $first, $second, $third, $immediate, false, false)
    };
    ($op:ident $size:ident $modrm:ident, $first:expr, $second:expr, $third:expr, $immediate:ident barred) => {
        table_row!(@ $op $size $modrm, $first, $second, $third, $immediate, true, false)
    };
    ($op:ident $size:ident $modrm:ident, $first:expr, $second:expr, $third:expr, $immediate:ident string) => {
        table_row!(@ $op $size $modrm, $first, $second, $third, $immediate, false, true)
    };
}

pub(crate) use table_row;
