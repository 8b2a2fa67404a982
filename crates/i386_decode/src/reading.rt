// Reading an instruction.
ghost use Rattle.std.specs.Prelude.{◌≡◌, ◌<◌, ◌≤◌, ◌^◌, ◌+◌, length, take, drop, slice_index_or, ℕ, ◌↔◌, ◌||◌, ◌==◌, Some, true, nat_lt, if◌then◌else◌};
ghost use Rattle.i386_decode.specs.declared.form.Form.{Form};
ghost use Rattle.i386_decode.specs.declared.form.Decoded.TheVariants as decoded;
ghost use Rattle.i386_decode.specs.InPlace.{decoded_by, numbers_at, read_at, is_prefixed};
ghost use Rattle.i386_decode.specs.Fields.{is_narrow, modrm_size, names_register, no_modrm, repeat_of, repeat_by};
ghost use Rattle.i386_decode.specs.Spelling.{entry_of, BeginsWith, BeginsSpelling, SpellsNothing};
ghost use Rattle.i386_decode.specs.Reading.{front, opcode_at, least_in, fields_at, row_read, entry_read, answer, decode_of, number};
ghost use Rattle.i386_decode.specs.WellFormed.{IsWellFormed, WhenForm};

use crate::fields::{
    NO_MODRM, displacement_count, fill, has_sib, immediate_count, is_register, modrm_count,
    number_from, reg_of, wants_memory,
};
use crate::form::{Extent, Form, Repeat};
use crate::groups::group_entry;
use crate::opcodes::{one_byte_entry, two_byte_entry};
use crate::prefix_table::is_prefix_byte;
use crate::row::{Entry, Group, Row};

// The prefixes (Intel 80386 manual, section 17.2).
const OPERAND_SIZE: u8 = 0x66;

const REPNE: u8 = 0xf2;

const REPE: u8 = 0xf3;

/// The first byte of the opcodes of two bytes.
const TWO_BYTE_ESCAPE: u8 = 0x0f;

/// The greatest number of bytes that an instruction has.
const LONGEST: usize = 15;

// Where the bytes end, those of the shortest instruction stand for the missing ones: INC EAX where the opcode is missing,
// IMUL where its second byte is, and memory at EAX for a ModRM byte.
const LEAST_OPCODE: u8 = 0x40;

const LEAST_SECOND: u8 = 0xaf;

const LEAST_MODRM: u8 = 0x00;

/// NOT of memory at EAX, as TEST has an immediate.
const LEAST_UNARY: u8 = 0x10;

/// BT of memory at EAX, the first of its group.
const LEAST_BIT_TEST: u8 = 0x20;

/// The byte at an index, or another where there is none.
fn byte_at(bytes: &[u8], at: usize, other: u8) -> u8
    ensures { result ≡ slice_index_or (drop at bytes.now) 0 other }
{
    if at < bytes.len() { bytes[at] } else { other }
}

/// The byte behind an index, or another where there is none.
fn byte_behind(bytes: &[u8], at: usize, other: u8) -> u8
    requires { at < 2 ^ 63 }
    ensures { result ≡ slice_index_or (drop at bytes.now) 1 other }
{
    if at + 1 < bytes.len() {
        bytes[at + 1]
    } else {
        other
    }
}

/// What a prefix makes of the repeat.
fn repeat_after(repeat: Repeat, byte: u8) -> Repeat
    ensures { result ≡ repeat_by repeat byte }
{
    match byte {
        REPNE => Repeat::WhileUnequal,
        REPE => Repeat::WhileEqual,
        _ => repeat,
    }
}

/// Whether the operand size is 16, a prefix further on.
fn narrow_after(narrow: bool, byte: u8) -> bool
    ensures { result ≡ (narrow || (byte == 0x66)) }
{
    narrow || byte == OPERAND_SIZE
}

/// The prefixes at the front: how many, whether 66 is among them, and the repeat that counts.
fn read_prefixes(bytes: &[u8]) -> (usize, bool, Repeat)
    ensures count { result.0 ≡ length (front bytes.now) }
    ensures within { result.0 ≤ length bytes.now }
    ensures narrow { result.1 ≡ is_narrow (front bytes.now) }
    ensures repeat { result.2 ≡ repeat_of (front bytes.now) }
{
    let mut count = 0;
    let mut narrow = false;
    let mut repeat = Repeat::Once;
    for byte in bytes {
        if !is_prefix_byte(*byte) {
            break;
        }
        count += 1;
        narrow = narrow_after(narrow, *byte);
        repeat = repeat_after(repeat, *byte);
    }
    (count, narrow, repeat)
}

/// The entry of the opcode at an index, and how many bytes the opcode has.
#[tactic(auto, unfolding(crate::specs::Spelling::entry_of))]
fn read_opcode(bytes: &[u8], at: usize) -> (&'static Entry, usize)
    requires { at < 2 ^ 63 }
    ensures entry { result.0.now ≡ entry_of (opcode_at (drop at bytes.now)) }
    ensures size { result.1 ≡ length (opcode_at (drop at bytes.now)) }
{
    let opcode = byte_at(bytes, at, LEAST_OPCODE);
    if opcode == TWO_BYTE_ESCAPE {
        (two_byte_entry(byte_behind(bytes, at, LEAST_SECOND)), 2)
    } else {
        (one_byte_entry(opcode), 1)
    }
}

/// The ModRM byte of the shortest instruction of a group.
fn least_in(group: Group) -> u8
    ensures { result ≡ least_in group }
{
    match group {
        Group::UnaryByte | Group::UnaryFull => LEAST_UNARY,
        Group::BitTest => LEAST_BIT_TEST,
        _ => LEAST_MODRM,
    }
}

/// What an instruction of so many bytes is, where fewer are there.
fn cut_off(total: usize) -> Extent
    ensures { (form : Form) → decoded_by result form ≡ (if nat_lt 15 total then decoded.Undefined else decoded.Short) }
{
    if LONGEST < total {
        Extent::Undefined
    } else {
        Extent::Short
    }
}

/// Reads the displacement and the immediate behind this ModRM byte and this SIB byte, behind `used` bytes.
#[inline(always)]
fn read_numbers(
    row: &Row,
    narrow: bool,
    repeat: Repeat,
    used: usize,
    modrm: u8,
    sib: u8,
    bytes: &[u8],
    form: &mut Form,
) -> Extent
    requires few { used < 2 ^ 63 + 4 }
    requires first { length bytes.now ≤ 15 }
    ensures { decoded_by result form.new ≡ numbers_at row.now narrow repeat used (length bytes.now) modrm sib (drop used bytes.now) }
{
    let displacement_bytes = displacement_count(modrm, sib);
    let last = used + displacement_bytes;
    let immediate_bytes = immediate_count(row.immediate, narrow);
    let total = last + immediate_bytes;
    if bytes.len() < total {
        return cut_off(total);
    }
    let displacement = number_from(bytes, used, displacement_bytes);
    let immediate = number_from(bytes, last, immediate_bytes);
    fill(
        row,
        narrow,
        repeat,
        modrm,
        sib,
        displacement,
        immediate,
        form,
    );
    Extent::Whole(total as u8)
}

/// The SIB byte at an index, or 0 where the bytes end before it.
fn sib_byte(bytes: &[u8], at: usize) -> u8
    ensures { result ≡ number 1 (drop at bytes.now) }
{
    byte_at(bytes, at, 0)
}

/// Reads what follows a ModRM byte that names memory, behind `used` bytes.
#[inline(never)]
#[tactic(auto, unfolding(crate::specs::Reading::fields_at))]
fn read_memory(
    row: &Row,
    narrow: bool,
    repeat: Repeat,
    used: usize,
    modrm: u8,
    bytes: &[u8],
    form: &mut Form,
) -> Extent
    requires few { used < 2 ^ 63 + 3 }
    requires first { length bytes.now ≤ 15 }
    ensures { decoded_by result form.new ≡ fields_at row.now narrow repeat used (length bytes.now) modrm (drop used bytes.now) }
{
    if has_sib(modrm) {
        let sib = sib_byte(bytes, used);
        read_numbers(row, narrow, repeat, used + 1, modrm, sib, bytes, form)
    } else {
        read_numbers(row, narrow, repeat, used, modrm, 0, bytes, form)
    }
}

/// Reads what follows where there is neither a SIB byte nor a displacement, behind `used` bytes.
#[inline(always)]
#[tactic(auto, unfolding(crate::specs::Reading::fields_at))]
fn read_plain(
    row: &Row,
    narrow: bool,
    repeat: Repeat,
    used: usize,
    modrm: u8,
    bytes: &[u8],
    form: &mut Form,
) -> Extent
    requires few { used < 2 ^ 63 + 3 }
    requires first { length bytes.now ≤ 15 }
    requires register { names_register modrm ≡ true }
    ensures { decoded_by result form.new ≡ fields_at row.now narrow repeat used (length bytes.now) modrm (drop used bytes.now) }
{
    let immediate_bytes = immediate_count(row.immediate, narrow);
    let total = used + immediate_bytes;
    if bytes.len() < total {
        return cut_off(total);
    }
    let immediate = number_from(bytes, used, immediate_bytes);
    fill(row, narrow, repeat, modrm, 0, 0, immediate, form);
    Extent::Whole(total as u8)
}

/// Reads what follows the opcode of a row with this ModRM byte, behind `used` bytes.
#[inline(always)]
fn read_row(
    row: &Row,
    narrow: bool,
    repeat: Repeat,
    used: usize,
    modrm: u8,
    bytes: &[u8],
    form: &mut Form,
) -> Extent
    requires few { used < 2 ^ 63 + 2 }
    requires first { length bytes.now ≤ 15 }
    ensures { decoded_by result form.new ≡ row_read (Some row.now) narrow repeat used (length bytes.now) modrm (drop used bytes.now) }
{
    if row.barred && narrow || wants_memory(row.modrm) && is_register(modrm) {
        return Extent::Undefined;
    }
    let behind = used + modrm_count(row.modrm);
    if is_register(modrm) {
        read_plain(row, narrow, repeat, behind, modrm, bytes, form)
    } else {
        read_memory(row, narrow, repeat, behind, modrm, bytes, form)
    }
}

/// Reads what follows the opcode of a row that has no ModRM byte, behind `used` bytes.
#[inline(always)]
fn read_bare(
    row: &Row,
    narrow: bool,
    repeat: Repeat,
    used: usize,
    bytes: &[u8],
    form: &mut Form,
) -> Extent
    requires few { used < 2 ^ 63 + 2 }
    requires first { length bytes.now ≤ 15 }
    requires bare { modrm_size row.now.modrm ≡ 0 }
    ensures { decoded_by result form.new ≡ row_read (Some row.now) narrow repeat used (length bytes.now) no_modrm (drop used bytes.now) }
{
    if row.barred && narrow {
        return Extent::Undefined;
    }
    read_plain(row, narrow, repeat, used, NO_MODRM, bytes, form)
}

/// Reads what follows the opcode, behind `used` bytes. Where the bytes end before a ModRM byte, that of the shortest
/// instruction stands for it.
#[inline(always)]
#[tactic(auto, unfolding(crate::specs::Reading::entry_read))]
fn read_entry(
    entry: &Entry,
    narrow: bool,
    repeat: Repeat,
    used: usize,
    bytes: &[u8],
    form: &mut Form,
) -> Extent
    requires few { used < 2 ^ 63 + 2 }
    requires first { length bytes.now ≤ 15 }
    ensures { decoded_by result form.new ≡ entry_read entry.now narrow repeat used (length bytes.now) (drop used bytes.now) }
{
    match entry {
        Entry::Invalid => Extent::Undefined,
        Entry::One(row) => if modrm_count(row.modrm) == 0 {
            read_bare(row, narrow, repeat, used, bytes, form)
        } else {
            read_row(
                row,
                narrow,
                repeat,
                used,
                byte_at(bytes, used, LEAST_MODRM),
                bytes,
                form,
            )
        },
        Entry::Many(group) => {
            let modrm = byte_at(bytes, used, least_in(*group));
            match group_entry(*group, reg_of(modrm)) {
                None => Extent::Undefined,
                Some(row) => read_row(row, narrow, repeat, used, modrm, bytes, form),
            }
        }
    }
}

/// The bytes that can belong to the instruction at the front.
fn first_bytes(bytes: &[u8]) -> &[u8]
    ensures { result.now ≡ take 15 bytes.now }
{
    if bytes.len() > LONGEST {
        &bytes[..LONGEST]
    } else {
        bytes
    }
}

/// Reads what stands behind `count` prefixes.
#[inline(always)]
fn read_behind(bytes: &[u8], count: usize, narrow: bool, repeat: Repeat, form: &mut Form) -> Extent
    requires few { count < 2 ^ 63 }
    requires first { length bytes.now ≤ 15 }
    ensures { decoded_by result form.new ≡ read_at (drop count bytes.now) narrow repeat count (length bytes.now) }
{
    let (entry, size) = read_opcode(bytes, count);
    read_entry(entry, narrow, repeat, count + size, bytes, form)
}

/// Reads from the prefixes at the front on.
#[inline(never)]
#[tactic(auto, unfolding(crate::specs::Reading::answer))]
fn read_prefixed(bytes: &[u8], form: &mut Form) -> Extent
    requires { length bytes.now ≤ 15 }
    ensures { decoded_by result form.new ≡ answer bytes.now }
{
    let (count, narrow, repeat) = read_prefixes(bytes);
    read_behind(bytes, count, narrow, repeat, form)
}

/// Whether a prefix stands at the front.
fn begins_with_prefix(bytes: &[u8]) -> bool
    ensures { result ≡ is_prefixed bytes.now }
{
    0 < bytes.len() && is_prefix_byte(bytes[0])
}

/// Reads the instruction that at most 15 bytes begin with.
#[tactic(auto, unfolding(crate::specs::Reading::answer))]
fn read_short(bytes: &[u8], form: &mut Form) -> Extent
    requires { length bytes.now ≤ 15 }
    ensures { decoded_by result form.new ≡ answer bytes.now }
{
    if begins_with_prefix(bytes) {
        read_prefixed(bytes, form)
    } else {
        read_behind(bytes, 0, false, Repeat::Once, form)
    }
}

/// What `decode` does, with its one clause that is an equation: the others follow from it.
#[tactic(auto, unfolding(crate::specs::Reading::decode_of))]
fn read(bytes: &[u8], form: &mut Form) -> Extent
    ensures { decoded_by result form.new ≡ decode_of bytes.now }
{
    read_short(first_bytes(bytes), form)
}

/// Reads the instruction that the bytes begin with into a form, and gives its length; `Short` where the bytes are the
/// beginning of an instruction and not all of it, so that more bytes decide; `Undefined` where no instruction begins so,
/// however the bytes go on. At most 15 bytes are read.
#[inline(always)]
pub fn decode(bytes: &[u8], form: &mut Form) -> Extent
    // A form, exactly where its spelling stands at the front.
    ensures form { (f : Form) (n : ℕ) → (decoded_by result form.new ≡ decoded.Form f n) ↔ BeginsWith bytes.now f n }
    ensures short { (decoded_by result form.new ≡ decoded.Short) ↔ BeginsSpelling bytes.now }
    ensures undefined { (decoded_by result form.new ≡ decoded.Undefined) ↔ SpellsNothing bytes.now }
    // The same as a function that computes.
    ensures value { decoded_by result form.new ≡ decode_of bytes.now }
    ensures well_formed { WhenForm (decoded_by result form.new) (λ form size. IsWellFormed form) }
    ensures not_empty { WhenForm (decoded_by result form.new) (λ form size. 1 ≤ size) }
    ensures limit { WhenForm (decoded_by result form.new) (λ form size. size ≤ 15) }
    ensures within { WhenForm (decoded_by result form.new) (λ form size. size ≤ length bytes.now) }
{
    read(bytes, form)
}
