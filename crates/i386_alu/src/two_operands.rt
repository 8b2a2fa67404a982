// Operations on two operands.
ghost use Rattle.std.specs.Prelude.{◌≡◌, ◌<◌, ◌+◌, ◌-◌, ◌≤◌, pos, ◌^◌, ◌≤ℤ◌, ◌<ℤ◌, ◌+ℤ◌, ◌-ℤ◌};
ghost use Rattle.cpu_state.specs.Width.{modulus};
ghost use Rattle.i386_alu.specs.Operand.{signed, leaves};
ghost use Rattle.i386_alu.specs.Binary.{sum_of, difference_of, logical_of, binary_of};

use crate::operand::{carried, leaves, of_result, signed};
use cpu_state::{Eflags, Op, Width};

// The exact sum of two signed operands and a carry.
fn exact_sum(x: i64, y: i64, c: u32) -> i64
    requires x_low { (pos 0 -ℤ pos (2 ^ 31)) ≤ℤ x }
    requires x_high { x <ℤ pos (2 ^ 31) }
    requires y_low { (pos 0 -ℤ pos (2 ^ 31)) ≤ℤ y }
    requires y_high { y <ℤ pos (2 ^ 31) }
    ensures { result ≡ x +ℤ y +ℤ pos c }
{
    x + y + c as i64
}

// The exact difference of two signed operands and a borrow.
fn exact_difference(x: i64, y: i64, c: u32) -> i64
    requires x_low { (pos 0 -ℤ pos (2 ^ 31)) ≤ℤ x }
    requires x_high { x <ℤ pos (2 ^ 31) }
    requires y_low { (pos 0 -ℤ pos (2 ^ 31)) ≤ℤ y }
    requires y_high { y <ℤ pos (2 ^ 31) }
    ensures { result ≡ x -ℤ y -ℤ pos c }
{
    x - y - c as i64
}

// Whether the signed sum leaves the range of a width.
fn sum_overflows(width: Width, a: u32, b: u32, c: u32) -> bool
    requires a_fits { a < modulus width }
    requires b_fits { b < modulus width }
    ensures { result ≡ leaves width (signed width a +ℤ signed width b +ℤ pos c) }
{
    leaves(width, exact_sum(signed(width, a), signed(width, b), c))
}

// Whether the signed difference leaves the range of a width.
fn difference_overflows(width: Width, a: u32, b: u32, c: u32) -> bool
    requires a_fits { a < modulus width }
    requires b_fits { b < modulus width }
    ensures { result ≡ leaves width (signed width a -ℤ signed width b -ℤ pos c) }
{
    leaves(
        width,
        exact_difference(signed(width, a), signed(width, b), c),
    )
}

// The sum of two operands and a carry.
pub(crate) fn sum(width: Width, a: u32, b: u32, c: u32, flags: Eflags) -> (u32, Eflags)
    requires a_fits { a < modulus width }
    requires b_fits { b < modulus width }
    requires carry { c ≤ 1 }
    ensures value { result.0 ≡ (sum_of width a b c flags).value }
    ensures flags { result.1 ≡ (sum_of width a b c flags).flags }
    ensures fits { result.0 < modulus width }
{
    let exact = a as u64 + b as u64 + c as u64;
    let value = (exact % width.modulus()) as u32;
    let flags = Eflags {
        carry: exact >= width.modulus(),
        adjust: a % 16 + b % 16 + c > 15,
        overflow: sum_overflows(width, a, b, c),
        ..of_result(width, value, flags)
    };
    (value, flags)
}

// The difference of two operands and a borrow.
pub(crate) fn difference(width: Width, a: u32, b: u32, c: u32, flags: Eflags) -> (u32, Eflags)
    requires a_fits { a < modulus width }
    requires b_fits { b < modulus width }
    requires borrow { c ≤ 1 }
    ensures value { result.0 ≡ (difference_of width a b c flags).value }
    ensures flags { result.1 ≡ (difference_of width a b c flags).flags }
    ensures fits { result.0 < modulus width }
{
    let modulus = width.modulus();
    let taken = b as u64 + c as u64;
    let value = ((a as u64 + modulus - taken) % modulus) as u32;
    let flags = Eflags {
        carry: (a as u64) < taken,
        adjust: a % 16 < b % 16 + c,
        overflow: difference_overflows(width, a, b, c),
        ..of_result(width, value, flags)
    };
    (value, flags)
}

// A result by bits.
fn logical(width: Width, value: u32, flags: Eflags) -> (u32, Eflags)
    ensures value { result.0 ≡ (logical_of width value flags).value }
    ensures flags { result.1 ≡ (logical_of width value flags).flags }
{
    let flags = Eflags {
        carry: false,
        overflow: false,
        ..of_result(width, value, flags)
    };
    (value, flags)
}

/// ADD, OR, ADC, SBB, AND, SUB, XOR, CMP or TEST of two operands: the result, and the flags after it (Intel 80386 manual,
/// chapter 17 and appendix C). CMP and TEST give `a`. Any other operation gives `a` and the flags as they were.
#[tactic(auto, unfolding(crate::specs::Binary::binary_of))]
pub fn binary(op: Op, width: Width, a: u32, b: u32, flags: Eflags) -> (u32, Eflags)
    requires a_fits { a < modulus width }
    requires b_fits { b < modulus width }
    ensures value { result.0 ≡ (binary_of op width a b flags).value }
    ensures flags { result.1 ≡ (binary_of op width a b flags).flags }
    ensures fits { result.0 < modulus width }
{
    match op {
        Op::Add => sum(width, a, b, 0, flags),
        Op::Adc => sum(width, a, b, carried(flags.carry), flags),
        Op::Sub => difference(width, a, b, 0, flags),
        Op::Sbb => difference(width, a, b, carried(flags.carry), flags),
        Op::Cmp => (a, difference(width, a, b, 0, flags).1),
        Op::And => logical(width, a & b, flags),
        Op::Or => logical(width, a | b, flags),
        Op::Xor => logical(width, a ^ b, flags),
        Op::Test => (a, logical(width, a & b, flags).1),
        _ => (a, flags),
    }
}
