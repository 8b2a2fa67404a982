// The fields of an instruction: how long each is, and what they make of the operands.

ghost use Rattle.std.specs.Prelude.{◌≡◌, ◌<◌, ◌≤◌, ◌+◌, ◌/◌, ◌%◌, drop, length, slice_index_or, if◌then◌else◌};
ghost use Rattle.i386_decode.specs.Fields.{reg, mode, rm, sib_size, displacement_size, immediate_size, modrm_size, is_memory_only, names_register, sign_extended, base_of, index_of, address_of, extended, operand_of, width_of, form_of};
ghost use Rattle.i386_decode.specs.Reading.{number};

use crate::form::{Address, Form, Operand, Repeat};
use crate::row::{ImmediateKind, ModRm, Place, Row, Size};
use cpu_state::Width;

/// The byte at an index, or another where there is none.
pub fn byte_or(bytes: &[u8], at: usize, other: u8) -> u8
    ensures { result ≡ slice_index_or bytes.now at other }
{
    if at < bytes.len() { bytes[at] } else { other }
}

/// A byte of those from an index on, as a number.
fn byte_from(bytes: &[u8], at: usize, place: usize) -> u32
    requires { at + place < length bytes.now }
    ensures value { result ≡ slice_index_or (drop at bytes.now) place 0 }
    ensures small { result < 256 }
{
    u32::from(bytes[at + place])
}

/// The number of so many bytes from an index on, lowest first.
pub fn number_from(bytes: &[u8], at: usize, count: usize) -> u32
    requires few { count ≤ 4 }
    requires within { at + count ≤ length bytes.now }
    ensures value { result ≡ number count (drop at bytes.now) }
    ensures one { count ≤ 1 → result < 256 }
{
    match count {
        0 => 0,
        1 => byte_from(bytes, at, 0),
        2 => byte_from(bytes, at, 0) + 256 * byte_from(bytes, at, 1),
        3 => byte_from(bytes, at, 0)
            + 256 * (byte_from(bytes, at, 1) + 256 * byte_from(bytes, at, 2)),
        _ => byte_from(bytes, at, 0)
            + 256
                * (byte_from(bytes, at, 1)
                    + 256 * (byte_from(bytes, at, 2) + 256 * byte_from(bytes, at, 3))),
    }
}

// The fields of a ModRM byte and of a SIB byte (Intel 80386 manual, section 17.2.1, tables 17-3 and 17-4).

/// The mod fields: memory without a displacement, with one of a byte or a doubleword, and a register.
const NO_DISPLACEMENT: u8 = 0;

const BYTE_DISPLACEMENT: u8 = 1;

const FULL_DISPLACEMENT: u8 = 2;

const REGISTER_MODE: u8 = 3;

/// With this r/m field, and memory, a SIB byte follows.
const SIB_FOLLOWS: u8 = 4;

/// With this r/m field, or base of a SIB byte, and mod 00, a displacement of 32 bits stands in the base's place.
const NO_BASE: u8 = 5;

/// This index of a SIB byte is none.
const NO_INDEX: u8 = 4;

/// What stands for the ModRM byte where there is none: no SIB byte and no displacement follow.
pub const NO_MODRM: u8 = 0xc0;

/// The mod field of a ModRM byte.
fn mode_of(modrm: u8) -> u8
    ensures { result ≡ mode modrm }
{
    modrm / 64
}

/// The r/m field of a ModRM byte.
fn rm_of(modrm: u8) -> u8
    ensures value { result ≡ rm modrm }
    ensures small { result < 8 }
{
    modrm % 8
}

/// The base of a SIB byte.
fn base_field(sib: u8) -> u8
    ensures { result ≡ sib % 8 }
{
    sib % 8
}

/// The index of a SIB byte.
fn index_field(sib: u8) -> u8
    ensures { result ≡ (sib / 8) % 8 }
{
    sib / 8 % 8
}

/// The reg field of a ModRM byte.
pub fn reg_of(modrm: u8) -> u8
    ensures value { result ≡ reg modrm }
    ensures small { result < 8 }
{
    modrm / 8 % 8
}

/// How many ModRM bytes there are.
pub fn modrm_count(modrm: ModRm) -> usize
    ensures { result ≡ modrm_size modrm }
{
    match modrm {
        ModRm::Without => 0,
        ModRm::Either | ModRm::MemoryOnly => 1,
    }
}

/// Whether a register at the r/m field begins no spelling.
pub fn wants_memory(modrm: ModRm) -> bool
    ensures { result ≡ is_memory_only modrm }
{
    match modrm {
        ModRm::Without | ModRm::Either => false,
        ModRm::MemoryOnly => true,
    }
}

/// Whether the r/m field is a register.
pub fn is_register(modrm: u8) -> bool
    ensures { result ≡ names_register modrm }
{
    mode_of(modrm) == REGISTER_MODE
}

/// Whether a SIB byte follows a ModRM byte.
pub fn has_sib(modrm: u8) -> bool
    ensures { sib_size modrm ≡ (if result then 1 else 0) }
{
    mode_of(modrm) < REGISTER_MODE && rm_of(modrm) == SIB_FOLLOWS
}

/// How many bytes a displacement has.
pub fn displacement_count(modrm: u8, sib: u8) -> usize
    ensures value { result ≡ displacement_size modrm sib }
    ensures bound { result ≤ 4 }
{
    match mode_of(modrm) {
        NO_DISPLACEMENT => if rm_of(modrm) == NO_BASE
            || rm_of(modrm) == SIB_FOLLOWS && base_field(sib) == NO_BASE
        {
            4
        } else {
            0
        },
        BYTE_DISPLACEMENT => 1,
        FULL_DISPLACEMENT => 4,
        _ => 0,
    }
}

/// How many bytes an immediate has.
pub fn immediate_count(kind: ImmediateKind, narrow: bool) -> usize
    ensures value { result ≡ immediate_size kind narrow }
    ensures bound { result ≤ 4 }
{
    match kind {
        ImmediateKind::NoBytes => 0,
        ImmediateKind::OneByte | ImmediateKind::SignedByte => 1,
        ImmediateKind::FullWidth if narrow => 2,
        ImmediateKind::TwoBytes => 2,
        ImmediateKind::FullWidth | ImmediateKind::FourBytes => 4,
    }
}

/// A byte in 32 bits, with its sign.
fn sign_extend(byte: u32) -> u32
    requires { byte < 256 }
    ensures { result ≡ sign_extended byte }
{
    if byte < 128 { byte } else { byte + 0xffffff00 }
}

/// The base register of an address.
fn base(modrm: u8, sib: u8) -> Option<u8>
    ensures { result ≡ base_of modrm sib }
{
    let rm = rm_of(modrm);
    if rm == SIB_FOLLOWS {
        if base_field(sib) == NO_BASE && mode_of(modrm) == NO_DISPLACEMENT {
            None
        } else {
            Some(base_field(sib))
        }
    } else {
        if rm == NO_BASE && mode_of(modrm) == NO_DISPLACEMENT {
            None
        } else {
            Some(rm)
        }
    }
}

/// The index register of an address, and its shift.
fn index(modrm: u8, sib: u8) -> Option<(u8, u8)>
    ensures { result ≡ index_of modrm sib }
{
    let index = index_field(sib);
    if rm_of(modrm) == SIB_FOLLOWS && index != NO_INDEX {
        Some((index, sib / 64))
    } else {
        None
    }
}

/// The width of an operation.
fn width(size: Size, narrow: bool) -> Width
    ensures { result ≡ width_of size narrow }
{
    match size {
        Size::Byte => Width::W8,
        Size::Full => if narrow { Width::W16 } else { Width::W32 },
    }
}

/// The address of an operand of memory.
#[inline(always)]
fn address(modrm: u8, sib: u8, displacement: u32) -> Address
    requires { displacement_size modrm sib ≤ 1 → displacement < 256 }
    ensures { result ≡ address_of modrm sib displacement }
{
    Address {
        base: base(modrm, sib),
        index: index(modrm, sib),
        displacement: if mode_of(modrm) == BYTE_DISPLACEMENT {
            sign_extend(displacement)
        } else {
            displacement
        },
    }
}

/// An immediate in 32 bits.
fn extend(kind: ImmediateKind, narrow: bool, immediate: u32) -> u32
    requires { immediate_size kind narrow ≤ 1 → immediate < 256 }
    ensures { result ≡ extended kind immediate }
{
    match kind {
        ImmediateKind::SignedByte => sign_extend(immediate),
        ImmediateKind::NoBytes
        | ImmediateKind::OneByte
        | ImmediateKind::TwoBytes
        | ImmediateKind::FullWidth
        | ImmediateKind::FourBytes => immediate,
    }
}

/// Fills the operand at a place.
#[inline(always)]
fn fill_operand(
    place: &Place,
    modrm: u8,
    sib: u8,
    displacement: u32,
    immediate: u32,
    operand: &mut Operand,
)
    requires { displacement_size modrm sib ≤ 1 → displacement < 256 }
    ensures { operand.new ≡ operand_of place.now modrm sib displacement immediate }
{
    match place {
        Place::Nothing => *operand = Operand::Absent,
        Place::RegField => *operand = Operand::Register(reg_of(modrm)),
        Place::RmField => if is_register(modrm) {
            *operand = Operand::Register(rm_of(modrm));
        } else {
            *operand = Operand::Memory(address(modrm, sib, displacement));
        },
        Place::Fixed(register) => *operand = Operand::Register(*register),
        Place::Number(number) => *operand = Operand::Immediate(*number),
        Place::Immediate => *operand = Operand::Immediate(immediate),
        Place::Offset => *operand = Operand::Memory(Address {
            base: None,
            index: None,
            displacement: immediate,
        }),
    }
}

/// Fills the form of a row with these prefixes and fields.
#[inline(always)]
#[tactic(auto, unfolding(crate::specs::Fields::form_of))]
pub fn fill(
    row: &Row,
    narrow: bool,
    repeat: Repeat,
    modrm: u8,
    sib: u8,
    displacement: u32,
    immediate: u32,
    form: &mut Form,
)
    requires displacement_fits { displacement_size modrm sib ≤ 1 → displacement < 256 }
    requires immediate_fits { immediate_size row.now.immediate narrow ≤ 1 → immediate < 256 }
    ensures { form.new ≡ form_of row.now narrow repeat modrm sib displacement immediate }
{
    let immediate = extend(row.immediate, narrow, immediate);
    form.op = row.op;
    form.width = width(row.size, narrow);
    fill_operand(
        &row.first,
        modrm,
        sib,
        displacement,
        immediate,
        &mut form.first,
    );
    fill_operand(
        &row.second,
        modrm,
        sib,
        displacement,
        immediate,
        &mut form.second,
    );
    match &row.third {
        Place::Nothing => form.third = Operand::Absent,
        place => fill_operand(place, modrm, sib, displacement, immediate, &mut form.third),
    }
    form.repeat = if row.string { repeat } else { Repeat::Once };
}
