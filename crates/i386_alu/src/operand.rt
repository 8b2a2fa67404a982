// Operands as numbers, and the flags of a result.
ghost use Rattle.std.specs.Prelude.{◌≡◌, ◌<◌, ◌-◌, ◌%◌, ◌≤◌, pos, ◌^◌, ◌≤ℤ◌, ◌<ℤ◌, ◌-ℤ◌};
ghost use Rattle.cpu_state.specs.Width.{modulus};
ghost use Rattle.i386_alu.specs.Operand.{signed, leaves, wrapped, carried, of_result};

use cpu_state::{Eflags, Width};

// An operand as a signed number.
pub(crate) fn signed(width: Width, a: u32) -> i64
    requires { a < modulus width }
    ensures value { result ≡ signed width a }
    ensures low { (pos 0 -ℤ pos (2 ^ 31)) ≤ℤ result }
    ensures high { result <ℤ pos (2 ^ 31) }
{
    if width.top_bit(a) {
        a as i64 - width.modulus() as i64
    } else {
        a as i64
    }
}

// Whether a signed number leaves the range of a width.
pub(crate) fn leaves(width: Width, z: i64) -> bool
    ensures { result ≡ leaves width z }
{
    let half = (width.modulus() / 2) as i64;
    z < -half || z >= half
}

// A flag as a number.
pub(crate) fn carried(flag: bool) -> u32
    ensures value { result ≡ carried flag }
    ensures small { result ≤ 1 }
{
    if flag { 1 } else { 0 }
}

// PF, ZF and SF of a result.
pub(crate) fn of_result(width: Width, value: u32, flags: Eflags) -> Eflags
    ensures { result ≡ of_result width value flags }
{
    Eflags {
        parity: (value % 256).count_ones() % 2 == 0,
        zero: value == 0,
        sign: width.top_bit(value),
        ..flags
    }
}

// The bits of a signed number that a width keeps, which is its two's complement.
#[tactic(auto, using(crate::proofs::Wraps::kept))]
pub(crate) fn wrapped(width: Width, z: i64) -> u32
    ensures value { result ≡ wrapped (modulus width) z }
    ensures fits { result < modulus width }
{
    (z.cast_unsigned() % width.modulus()) as u32
}
