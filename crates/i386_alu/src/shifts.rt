// Shifts and rotations, as so many single ones.
ghost use Rattle.std.specs.Prelude.{◌≡◌, ◌<◌};
ghost use Rattle.cpu_state.specs.Width.{modulus};
ghost use Rattle.i386_alu.specs.Shift.{lowest, below_top, leftward, rightward, single_of, singles_of, overflow_of, shift_of};

use crate::operand::{carried, of_result};
use cpu_state::{Eflags, Op, Width};

// The lowest bit of an operand.
pub(crate) fn lowest(a: u32) -> bool
    ensures { result ≡ lowest a }
{
    a % 2 == 1
}

// The bit below the top one.
fn below_top(width: Width, a: u32) -> bool
    ensures { result ≡ below_top width a }
{
    a as u64 % (width.modulus() / 2) >= width.modulus() / 4
}

// An operand one place to the left, with the bit that enters at the right.
pub(crate) fn leftward(width: Width, a: u32, enters: bool) -> u32
    requires { a < modulus width }
    ensures value { result ≡ leftward width a enters }
    ensures fits { result < modulus width }
{
    (a as u64 * 2 % width.modulus()) as u32 + carried(enters)
}

// An operand one place to the right, with the bit that enters at the left.
pub(crate) fn rightward(width: Width, a: u32, enters: bool) -> u32
    requires { a < modulus width }
    ensures value { result ≡ rightward width a enters }
    ensures fits { result < modulus width }
{
    let half = (width.modulus() / 2) as u32;
    a / 2 + if enters { half } else { 0 }
}

// One single shift or rotation: the operand, and the bit that left it.
#[tactic(auto, unfolding(crate::specs::Shift::single_of))]
fn single(op: Op, width: Width, a: u32, carry: bool) -> (u32, bool)
    requires { a < modulus width }
    ensures value { result.0 ≡ (single_of op width (record { value = a; carry = carry })).value }
    ensures carry { result.1 ≡ (single_of op width (record { value = a; carry = carry })).carry }
    ensures fits { result.0 < modulus width }
{
    let high = width.top_bit(a);
    let low = lowest(a);
    match op {
        Op::Rol => (leftward(width, a, high), high),
        Op::Ror => (rightward(width, a, low), low),
        Op::Rcl => (leftward(width, a, carry), high),
        Op::Rcr => (rightward(width, a, carry), low),
        Op::Shl => (leftward(width, a, false), high),
        Op::Shr => (rightward(width, a, false), low),
        Op::Sar => (rightward(width, a, high), low),
        _ => (a, carry),
    }
}

// So many of them.
fn singles(op: Op, width: Width, count: u8, a: u32, carry: bool) -> (u32, bool)
    requires { a < modulus width }
    ensures value { result.0 ≡ (singles_of op width count (record { value = a; carry = carry })).value }
    ensures carry { result.1 ≡ (singles_of op width count (record { value = a; carry = carry })).carry }
    ensures fits { result.0 < modulus width }
{
    let mut value = a;
    let mut out = carry;
    for _place in 0..count {
        (value, out) = single(op, width, value, out);
    }
    (value, out)
}

// OF after a single one that made `value` of `a` and left `carry`.
#[tactic(auto, unfolding(crate::specs::Shift::overflow_of))]
fn overflows(op: Op, width: Width, a: u32, value: u32, carry: bool) -> bool
    ensures { result ≡ overflow_of op width a (record { value = value; carry = carry }) }
{
    match op {
        Op::Rol => width.top_bit(value) != carry,
        Op::Rcl => width.top_bit(value) != carry,
        Op::Ror => width.top_bit(value) != below_top(width, value),
        Op::Rcr => width.top_bit(value) != below_top(width, value),
        Op::Shl => width.top_bit(value) != carry,
        Op::Shr => width.top_bit(a),
        _ => false,
    }
}

/// ROL, ROR, RCL, RCR, SHL, SHR or SAR of an operand by a count modulo 32: the result, and the flags after it (Intel 80386
/// manual, chapter 17 and appendix C). By 0 nothing changes. OF changes only for one place, and AF stays; where the manual
/// leaves a flag undefined it keeps its value. Any other operation gives `a` and the flags as they were.
#[tactic(auto, unfolding(crate::specs::Shift::shift_of))]
pub fn shift(op: Op, width: Width, a: u32, count: u8, flags: Eflags) -> (u32, Eflags)
    requires { a < modulus width }
    ensures value { result.0 ≡ (shift_of op width a count flags).value }
    ensures flags { result.1 ≡ (shift_of op width a count flags).flags }
    ensures fits { result.0 < modulus width }
{
    let count = count % 32;
    if count == 0 {
        return (a, flags);
    }
    let (value, carry) = singles(op, width, count, a, flags.carry);
    let moved = Eflags {
        carry,
        overflow: if count == 1 {
            overflows(op, width, a, value, carry)
        } else {
            flags.overflow
        },
        ..flags
    };
    match op {
        Op::Rol => (value, moved),
        Op::Ror => (value, moved),
        Op::Rcl => (value, moved),
        Op::Rcr => (value, moved),
        Op::Shl => (value, of_result(width, value, moved)),
        Op::Shr => (value, of_result(width, value, moved)),
        Op::Sar => (value, of_result(width, value, moved)),
        _ => (a, flags),
    }
}
