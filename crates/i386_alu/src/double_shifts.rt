// Double shifts, as so many single ones.
ghost use Rattle.std.specs.Prelude.{◌≡◌, ◌<◌};
ghost use Rattle.cpu_state.specs.Width.{modulus};
ghost use Rattle.i386_alu.specs.DoubleShift.{fill_of, filled_of, double_shift_of};

use crate::operand::of_result;
use crate::shifts::{leftward, lowest, rightward};
use cpu_state::{Eflags, Op, Width};

// One single double shift: the operand, the source, and the bit that left the operand.
#[tactic(auto, unfolding(crate::specs::DoubleShift::fill_of))]
fn fill(op: Op, width: Width, a: u32, source: u32, out: bool) -> (u32, u32, bool)
    requires a_fits { a < modulus width }
    requires source_fits { source < modulus width }
    ensures value { result.0 ≡ (fill_of op width (record { value = a; source = source; out = out })).value }
    ensures source { result.1 ≡ (fill_of op width (record { value = a; source = source; out = out })).source }
    ensures out { result.2 ≡ (fill_of op width (record { value = a; source = source; out = out })).out }
    ensures value_fits { result.0 < modulus width }
    ensures source_fits { result.1 < modulus width }
{
    match op {
        Op::Shld => (
            leftward(width, a, width.top_bit(source)),
            leftward(width, source, false),
            width.top_bit(a),
        ),
        Op::Shrd => (
            rightward(width, a, lowest(source)),
            rightward(width, source, false),
            lowest(a),
        ),
        _ => (a, source, out),
    }
}

// So many of them: the operand, and the last bit out.
fn fills(op: Op, width: Width, count: u8, a: u32, b: u32) -> (u32, bool)
    requires a_fits { a < modulus width }
    requires b_fits { b < modulus width }
    ensures value { result.0 ≡ (filled_of op width a b count).value }
    ensures out { result.1 ≡ (filled_of op width a b count).out }
    ensures fits { result.0 < modulus width }
{
    let mut value = a;
    let mut source = b;
    let mut out = false;
    for _place in 0..count {
        (value, source, out) = fill(op, width, value, source, out);
    }
    (value, out)
}

/// SHLD or SHRD of an operand that `b` fills, by a count modulo 32: the result, and the flags after it (Intel 80386 manual,
/// chapter 17 and appendix C). By 0, or by more places than the operand has, nothing changes at all. AF and OF stay. Any other
/// operation gives `a` and the flags as they were.
#[tactic(auto, unfolding(crate::specs::DoubleShift::double_shift_of))]
pub fn double_shift(op: Op, width: Width, a: u32, b: u32, count: u8, flags: Eflags) -> (u32, Eflags)
    requires a_fits { a < modulus width }
    requires b_fits { b < modulus width }
    ensures value { result.0 ≡ (double_shift_of op width a b count flags).value }
    ensures flags { result.1 ≡ (double_shift_of op width a b count flags).flags }
    ensures fits { result.0 < modulus width }
{
    let count = count % 32;
    if count == 0 || count as u32 > width.bits() {
        return (a, flags);
    }
    let (value, carry) = fills(op, width, count, a, b);
    let after = Eflags {
        carry,
        ..of_result(width, value, flags)
    };
    match op {
        Op::Shld => (value, after),
        Op::Shrd => (value, after),
        _ => (a, flags),
    }
}
