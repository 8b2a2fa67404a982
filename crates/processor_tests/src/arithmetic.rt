// What a real processor makes of arithmetic, row by row.
ghost use Rattle.std.specs.Prelude.{◌≡◌, nat_lt};
ghost use Rattle.cpu_state.specs.Width.{modulus};

mod operands;
mod others;
mod shifts;

use crate::rows::{Kind, check, numbers};
use cpu_state::{Eflags, Op, Width};
use i386_alu::{binary, bit, condition, divide, double_shift, multiply, scan, shift, unary};
use operands::{BINARY, CONDITION, UNARY};
use others::{BIT, DIVIDE, MULTIPLY, SCAN};
use shifts::{DOUBLE_SHIFT, SHIFT};

/// The operations of the rows, by their names.
static OPERATIONS: [(&str, Op); 33] = [
    ("Add", Op::Add),
    ("Or", Op::Or),
    ("Adc", Op::Adc),
    ("Sbb", Op::Sbb),
    ("And", Op::And),
    ("Sub", Op::Sub),
    ("Xor", Op::Xor),
    ("Cmp", Op::Cmp),
    ("Test", Op::Test),
    ("Inc", Op::Inc),
    ("Dec", Op::Dec),
    ("Not", Op::Not),
    ("Neg", Op::Neg),
    ("Mul", Op::Mul),
    ("Imul", Op::Imul),
    ("Div", Op::Div),
    ("Idiv", Op::Idiv),
    ("Rol", Op::Rol),
    ("Ror", Op::Ror),
    ("Rcl", Op::Rcl),
    ("Rcr", Op::Rcr),
    ("Shl", Op::Shl),
    ("Shr", Op::Shr),
    ("Sar", Op::Sar),
    ("Shld", Op::Shld),
    ("Shrd", Op::Shrd),
    ("Bt", Op::Bt),
    ("Bts", Op::Bts),
    ("Btr", Op::Btr),
    ("Btc", Op::Btc),
    ("Bsf", Op::Bsf),
    ("Bsr", Op::Bsr),
    ("Setcc", Op::Setcc),
];

/// A row: an operation, the width of its operands, and the numbers of its table's columns.
#[derive(Clone, Copy)]
struct Row {
    op: Op,
    width: Width,
    numbers: [u32; 13],
}

fn operation(name: &str) -> Option<Op> {
    for row in &OPERATIONS {
        if row.0 == name {
            return Some(row.1);
        }
    }
    None
}

fn width(bits: &str) -> Option<Width> {
    match bits {
        "8" => Some(Width::W8),
        "16" => Some(Width::W16),
        "32" => Some(Width::W32),
        _ => None,
    }
}

fn read_row(line: &str) -> Option<Row> {
    let (name, rest) = line.split_once(' ')?;
    let (bits, rest) = rest.split_once(' ')?;
    Some(Row {
        op: operation(name)?,
        width: width(bits)?,
        numbers: numbers(rest)?,
    })
}

// Whether an operand has its width.
fn fits(width: Width, a: u32) -> bool
    ensures { result ≡ nat_lt a (modulus width) }
{
    (a as u64) < width.modulus()
}

fn two_operands(row: Row) -> bool {
    let [a, b, before, value, after, ..] = row.numbers;
    if !fits(row.width, a) || !fits(row.width, b) {
        return false;
    }
    let (result, flags) = binary(row.op, row.width, a, b, Eflags::from_word(before));
    result == value && flags.word() == after
}

fn one_operand(row: Row) -> bool {
    let [a, before, value, after, ..] = row.numbers;
    if !fits(row.width, a) {
        return false;
    }
    let (result, flags) = unary(row.op, row.width, a, Eflags::from_word(before));
    result == value && flags.word() == after
}

fn shifted(row: Row) -> bool {
    let [a, count, before, value, after, ..] = row.numbers;
    if !fits(row.width, a) || count > 255 {
        return false;
    }
    let (result, flags) = shift(row.op, row.width, a, count as u8, Eflags::from_word(before));
    result == value && flags.word() == after
}

fn double_shifted(row: Row) -> bool {
    let [a, b, count, before, value, after, ..] = row.numbers;
    if !fits(row.width, a) || !fits(row.width, b) || count > 255 {
        return false;
    }
    let (result, flags) = double_shift(
        row.op,
        row.width,
        a,
        b,
        count as u8,
        Eflags::from_word(before),
    );
    result == value && flags.word() == after
}

fn multiplied(row: Row) -> bool {
    let [a, b, before, low, high, after, ..] = row.numbers;
    if !fits(row.width, a) || !fits(row.width, b) {
        return false;
    }
    let signed = row.op == Op::Imul;
    let (result, rest, flags) = multiply(signed, row.width, a, b, Eflags::from_word(before));
    result == low && rest == high && flags.word() == after
}

fn divided(row: Row) -> bool {
    let [high, low, by, is_some, quotient, remainder, ..] = row.numbers;
    if !fits(row.width, high) || !fits(row.width, low) || !fits(row.width, by) {
        return false;
    }
    let due = if is_some == 1 {
        Some((quotient, remainder))
    } else {
        None
    };
    divide(row.op == Op::Idiv, row.width, high, low, by) == due
}

fn bit_tested(row: Row) -> bool {
    let [a, place, before, value, after, ..] = row.numbers;
    if !fits(row.width, a) || place > 255 {
        return false;
    }
    let (result, flags) = bit(row.op, row.width, a, place as u8, Eflags::from_word(before));
    result == value && flags.word() == after
}

fn scanned(row: Row) -> bool {
    let [source, old, before, value, after, ..] = row.numbers;
    if !fits(row.width, source) || !fits(row.width, old) {
        return false;
    }
    let (result, flags) = scan(row.op, row.width, source, old, Eflags::from_word(before));
    result == value && flags.word() == after
}

fn conditions_hold(row: Row) -> bool {
    let [flags, held, ..] = row.numbers;
    for code in 0..16u8 {
        if condition(code, Eflags::from_word(flags)) != (held >> code & 1 == 1) {
            return false;
        }
    }
    true
}

// Whether the crate gives what a row says.
fn gives(row: Row) -> bool {
    match row.op {
        Op::Inc | Op::Dec | Op::Not | Op::Neg => one_operand(row),
        Op::Mul | Op::Imul => multiplied(row),
        Op::Div | Op::Idiv => divided(row),
        Op::Rol | Op::Ror | Op::Rcl | Op::Rcr | Op::Shl | Op::Shr | Op::Sar => shifted(row),
        Op::Shld | Op::Shrd => double_shifted(row),
        Op::Bt | Op::Bts | Op::Btr | Op::Btc => bit_tested(row),
        Op::Bsf | Op::Bsr => scanned(row),
        Op::Setcc => conditions_hold(row),
        _ => two_operands(row),
    }
}

/// Whether the crate gives what a line says; `None` where it isn't a row.
pub fn agrees(line: &str) -> Option<bool> {
    Some(gives(read_row(line)?))
}

#[test]
fn two_operands_as_on_a_processor(rt: HostRuntime) {
    check(&rt, rt.alloc(), Kind::Arithmetic, BINARY, 108);
}

#[test]
fn one_operand_as_on_a_processor(rt: HostRuntime) {
    check(&rt, rt.alloc(), Kind::Arithmetic, UNARY, 48);
}

#[test]
fn shifts_as_on_a_processor(rt: HostRuntime) {
    check(&rt, rt.alloc(), Kind::Arithmetic, SHIFT, 238);
}

#[test]
fn double_shifts_as_on_a_processor(rt: HostRuntime) {
    check(&rt, rt.alloc(), Kind::Arithmetic, DOUBLE_SHIFT, 70);
}

#[test]
fn products_as_on_a_processor(rt: HostRuntime) {
    check(&rt, rt.alloc(), Kind::Arithmetic, MULTIPLY, 36);
}

#[test]
fn quotients_as_on_a_processor(rt: HostRuntime) {
    check(&rt, rt.alloc(), Kind::Arithmetic, DIVIDE, 48);
}

#[test]
fn bit_tests_as_on_a_processor(rt: HostRuntime) {
    check(&rt, rt.alloc(), Kind::Arithmetic, BIT, 40);
}

#[test]
fn bit_scans_as_on_a_processor(rt: HostRuntime) {
    check(&rt, rt.alloc(), Kind::Arithmetic, SCAN, 24);
}

#[test]
fn conditions_as_on_a_processor(rt: HostRuntime) {
    check(&rt, rt.alloc(), Kind::Arithmetic, CONDITION, 32);
}
