// The groups of the opcode map, whose rows the reg field of the ModRM byte picks (Intel 80386 manual, appendix A).
ghost use Rattle.std.specs.Prelude.{◌≡◌, ◌<◌};
ghost use Rattle.i386_decode.specs.Table.{group_row};

use crate::row::Place::{Fixed, Immediate, Nothing, Number, RmField};
use crate::row::{Group, ImmediateKind, ModRm, Row, Size, table_row};
use cpu_state::Op;

macro_rules! immediate_group {
    ($size:ident, $immediate:ident) => {
        [
            Some(table_row!(Add $size Either, RmField, Immediate, Nothing, $immediate)),
            Some(table_row!(Or $size Either, RmField, Immediate, Nothing, $immediate)),
            Some(table_row!(Adc $size Either, RmField, Immediate, Nothing, $immediate)),
            Some(table_row!(Sbb $size Either, RmField, Immediate, Nothing, $immediate)),
            Some(table_row!(And $size Either, RmField, Immediate, Nothing, $immediate)),
            Some(table_row!(Sub $size Either, RmField, Immediate, Nothing, $immediate)),
            Some(table_row!(Xor $size Either, RmField, Immediate, Nothing, $immediate)),
            Some(table_row!(Cmp $size Either, RmField, Immediate, Nothing, $immediate)),
        ]
    };
}

macro_rules! shift_group {
    ($size:ident, $count:expr, $immediate:ident) => {
        [
            Some(table_row!(Rol $size Either, RmField, $count, Nothing, $immediate)),
            Some(table_row!(Ror $size Either, RmField, $count, Nothing, $immediate)),
            Some(table_row!(Rcl $size Either, RmField, $count, Nothing, $immediate)),
            Some(table_row!(Rcr $size Either, RmField, $count, Nothing, $immediate)),
            Some(table_row!(Shl $size Either, RmField, $count, Nothing, $immediate)),
            Some(table_row!(Shr $size Either, RmField, $count, Nothing, $immediate)),
            None,
            Some(table_row!(Sar $size Either, RmField, $count, Nothing, $immediate)),
        ]
    };
}

macro_rules! unary_group {
    ($size:ident, $immediate:ident) => {
        [
            Some(table_row!(Test $size Either, RmField, Immediate, Nothing, $immediate)),
            None,
            Some(table_row!(Not $size Either, RmField, Nothing, Nothing, NoBytes)),
            Some(table_row!(Neg $size Either, RmField, Nothing, Nothing, NoBytes)),
            Some(table_row!(Mul $size Either, RmField, Nothing, Nothing, NoBytes)),
            Some(table_row!(Imul $size Either, RmField, Nothing, Nothing, NoBytes)),
            Some(table_row!(Div $size Either, RmField, Nothing, Nothing, NoBytes)),
            Some(table_row!(Idiv $size Either, RmField, Nothing, Nothing, NoBytes)),
        ]
    };
}

// groups of which only reg field 0 spells anything
macro_rules! single_group {
    ($row:expr) => {
        [Some($row), None, None, None, None, None, None, None]
    };
}

static IMMEDIATE_BYTE: [Option<Row>; 8] = immediate_group!(Byte, OneByte);

static IMMEDIATE_FULL: [Option<Row>; 8] = immediate_group!(Full, FullWidth);

static IMMEDIATE_SIGNED: [Option<Row>; 8] = immediate_group!(Full, SignedByte);

static POP: [Option<Row>; 8] = single_group!(
    table_row!(Pop Full Either, RmField, Nothing, Nothing, NoBytes)
);

static SHIFT_BYTE_IMMEDIATE: [Option<Row>; 8] = shift_group!(Byte, Immediate, OneByte);

static SHIFT_FULL_IMMEDIATE: [Option<Row>; 8] = shift_group!(Full, Immediate, OneByte);

static SHIFT_BYTE_ONE: [Option<Row>; 8] = shift_group!(Byte, Number(1), NoBytes);

static SHIFT_FULL_ONE: [Option<Row>; 8] = shift_group!(Full, Number(1), NoBytes);

static SHIFT_BYTE_CL: [Option<Row>; 8] = shift_group!(Byte, Fixed(1), NoBytes);

static SHIFT_FULL_CL: [Option<Row>; 8] = shift_group!(Full, Fixed(1), NoBytes);

static MOV_BYTE: [Option<Row>; 8] = single_group!(
    table_row!(Mov Byte Either, RmField, Immediate, Nothing, OneByte)
);

static MOV_FULL: [Option<Row>; 8] = single_group!(
    table_row!(Mov Full Either, RmField, Immediate, Nothing, FullWidth)
);

static UNARY_BYTE: [Option<Row>; 8] = unary_group!(Byte, OneByte);

static UNARY_FULL: [Option<Row>; 8] = unary_group!(Full, FullWidth);

static INC_DEC_BYTE: [Option<Row>; 8] = [
    Some(table_row!(Inc Byte Either, RmField, Nothing, Nothing, NoBytes)),
    Some(table_row!(Dec Byte Either, RmField, Nothing, Nothing, NoBytes)),
    None,
    None,
    None,
    None,
    None,
    None,
];

static INDIRECT: [Option<Row>; 8] = [
    Some(table_row!(Inc Full Either, RmField, Nothing, Nothing, NoBytes)),
    Some(table_row!(Dec Full Either, RmField, Nothing, Nothing, NoBytes)),
    Some(table_row!(Call Full Either, RmField, Nothing, Nothing, NoBytes barred)),
    None,
    Some(table_row!(Jmp Full Either, RmField, Nothing, Nothing, NoBytes barred)),
    None,
    Some(table_row!(Push Full Either, RmField, Nothing, Nothing, NoBytes)),
    None,
];

static BIT_TEST: [Option<Row>; 8] = [
    None,
    None,
    None,
    None,
    Some(table_row!(Bt Full Either, RmField, Immediate, Nothing, OneByte)),
    Some(table_row!(Bts Full Either, RmField, Immediate, Nothing, OneByte)),
    Some(table_row!(Btr Full Either, RmField, Immediate, Nothing, OneByte)),
    Some(table_row!(Btc Full Either, RmField, Immediate, Nothing, OneByte)),
];

/// The row of a group that the reg field picks.
pub fn group_entry(group: Group, reg: u8) -> &'static Option<Row>
    requires { reg < 8 }
    ensures { result.now ≡ group_row group reg }
{
    let at = reg as usize;
    match group {
        Group::ImmediateByte => &IMMEDIATE_BYTE[at],
        Group::ImmediateFull => &IMMEDIATE_FULL[at],
        Group::ImmediateSigned => &IMMEDIATE_SIGNED[at],
        Group::Pop => &POP[at],
        Group::ShiftByteImmediate => &SHIFT_BYTE_IMMEDIATE[at],
        Group::ShiftFullImmediate => &SHIFT_FULL_IMMEDIATE[at],
        Group::ShiftByteOne => &SHIFT_BYTE_ONE[at],
        Group::ShiftFullOne => &SHIFT_FULL_ONE[at],
        Group::ShiftByteCl => &SHIFT_BYTE_CL[at],
        Group::ShiftFullCl => &SHIFT_FULL_CL[at],
        Group::MovByte => &MOV_BYTE[at],
        Group::MovFull => &MOV_FULL[at],
        Group::UnaryByte => &UNARY_BYTE[at],
        Group::UnaryFull => &UNARY_FULL[at],
        Group::IncDecByte => &INC_DEC_BYTE[at],
        Group::Indirect => &INDIRECT[at],
        Group::BitTest => &BIT_TEST[at],
    }
}
