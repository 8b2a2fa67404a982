// Multiplication.
ghost use Rattle.std.specs.Prelude.{◌≡◌, ◌<◌, ◌*◌, ◌/◌, ◌%◌, true, false, pos, ◌^◌, ◌≤ℤ◌, ◌<ℤ◌, ◌-ℤ◌, ◌*ℤ◌};
ghost use Rattle.cpu_state.specs.Width.{modulus};
ghost use Rattle.i386_alu.specs.Operand.{wrapped};
ghost use Rattle.i386_alu.specs.Product.{multiply_of};

use crate::operand::{leaves, signed};
use cpu_state::{Eflags, Width};

// The exact product of two signed operands.
fn exact_product(x: i64, y: i64) -> i64
    requires x_low { (pos 0 -ℤ pos (2 ^ 31)) ≤ℤ x }
    requires x_high { x <ℤ pos (2 ^ 31) }
    requires y_low { (pos 0 -ℤ pos (2 ^ 31)) ≤ℤ y }
    requires y_high { y <ℤ pos (2 ^ 31) }
    ensures { result ≡ x *ℤ y }
{
    x * y
}

// The low half of a signed product, in two's complement.
#[tactic(auto, using(crate::proofs::Wraps::low))]
fn low_half(width: Width, product: i64) -> u32
    ensures value { result ≡ wrapped (modulus width * modulus width) product % modulus width }
    ensures fits { result < modulus width }
{
    (product.cast_unsigned() % width.modulus()) as u32
}

// The high half of a signed product, in two's complement.
#[tactic(auto, using(crate::proofs::Wraps::high))]
fn high_half(width: Width, product: i64) -> u32
    ensures value { result ≡ wrapped (modulus width * modulus width) product / modulus width }
    ensures fits { result < modulus width }
{
    (product.cast_unsigned() / width.modulus() % width.modulus()) as u32
}

// MUL, by the exact unsigned product.
#[tactic(auto, unfolding(crate::specs::Product::multiply_of))]
fn multiply_unsigned(width: Width, a: u32, b: u32, flags: Eflags) -> (u32, u32, Eflags)
    requires a_fits { a < modulus width }
    requires b_fits { b < modulus width }
    ensures low { result.0 ≡ (multiply_of false width a b flags).low }
    ensures high { result.1 ≡ (multiply_of false width a b flags).high }
    ensures flags { result.2 ≡ (multiply_of false width a b flags).flags }
    ensures low_fits { result.0 < modulus width }
    ensures high_fits { result.1 < modulus width }
{
    let product = a as u64 * b as u64;
    let low = (product % width.modulus()) as u32;
    let high = (product / width.modulus()) as u32;
    let after = Eflags {
        carry: high != 0,
        overflow: high != 0,
        ..flags
    };
    (low, high, after)
}

// IMUL, by the exact signed product.
#[tactic(auto, unfolding(crate::specs::Product::multiply_of))]
fn multiply_signed(width: Width, a: u32, b: u32, flags: Eflags) -> (u32, u32, Eflags)
    requires a_fits { a < modulus width }
    requires b_fits { b < modulus width }
    ensures low { result.0 ≡ (multiply_of true width a b flags).low }
    ensures high { result.1 ≡ (multiply_of true width a b flags).high }
    ensures flags { result.2 ≡ (multiply_of true width a b flags).flags }
    ensures low_fits { result.0 < modulus width }
    ensures high_fits { result.1 < modulus width }
{
    let product = exact_product(signed(width, a), signed(width, b));
    let beyond = leaves(width, product);
    let after = Eflags {
        carry: beyond,
        overflow: beyond,
        ..flags
    };
    (low_half(width, product), high_half(width, product), after)
}

/// MUL, or IMUL where `signed`, of two operands: the low and the high half of the product, and the flags after it (Intel 80386
/// manual, chapter 17 and appendix C). CF and OF say whether the high half has a part of the product; all other flags stay.
pub fn multiply(signed: bool, width: Width, a: u32, b: u32, flags: Eflags) -> (u32, u32, Eflags)
    requires a_fits { a < modulus width }
    requires b_fits { b < modulus width }
    ensures low { result.0 ≡ (multiply_of signed width a b flags).low }
    ensures high { result.1 ≡ (multiply_of signed width a b flags).high }
    ensures flags { result.2 ≡ (multiply_of signed width a b flags).flags }
    ensures low_fits { result.0 < modulus width }
    ensures high_fits { result.1 < modulus width }
{
    if signed {
        multiply_signed(width, a, b, flags)
    } else {
        multiply_unsigned(width, a, b, flags)
    }
}
