// Division.
ghost use Rattle.std.specs.Prelude.{◌≡◌, ◌<◌, ◌≢◌, true, false, pos};
ghost use Rattle.cpu_state.specs.Width.{modulus};
ghost use Rattle.i386_alu.specs.Quotient.{dividend_of, signed_dividend, signed_quotient, divide_of};

use crate::operand::{leaves, signed, wrapped};
use cpu_state::Width;

// A dividend of twice the width.
fn dividend_of(width: Width, high: u32, low: u32) -> u64
    requires high_fits { high < modulus width }
    requires low_fits { low < modulus width }
    ensures { result ≡ dividend_of width high low }
{
    high as u64 * width.modulus() + low as u64
}

// A dividend of twice the width, as a signed number.
fn signed_dividend(width: Width, high: u32, low: u32) -> i64
    requires high_fits { high < modulus width }
    requires low_fits { low < modulus width }
    ensures { result ≡ signed_dividend width high low }
{
    signed(width, high) * width.modulus() as i64 + low as i64
}

// The signed quotient and remainder, if the quotient fits.
fn signed_quotient(width: Width, dividend: i64, by: i64) -> Option<(u32, u32)>
    requires { by ≢ pos 0 }
    ensures { result ≡ signed_quotient width dividend by }
{
    let quotient = dividend.checked_div(by)?;
    if leaves(width, quotient) {
        return None;
    }
    Some((wrapped(width, quotient), wrapped(width, dividend % by)))
}

// IDIV, by the exact signed quotient.
#[tactic(auto, unfolding(crate::specs::Quotient::divide_of))]
fn divide_signed(width: Width, high: u32, low: u32, by: u32) -> Option<(u32, u32)>
    requires high_fits { high < modulus width }
    requires low_fits { low < modulus width }
    requires by_fits { by < modulus width }
    ensures { result ≡ divide_of true width high low by }
{
    if by == 0 {
        return None;
    }
    signed_quotient(width, signed_dividend(width, high, low), signed(width, by))
}

// DIV, by the exact unsigned quotient.
#[tactic(auto, unfolding(crate::specs::Quotient::divide_of))]
fn divide_unsigned(width: Width, high: u32, low: u32, by: u32) -> Option<(u32, u32)>
    requires high_fits { high < modulus width }
    requires low_fits { low < modulus width }
    ensures { result ≡ divide_of false width high low by }
{
    if by == 0 {
        return None;
    }
    let dividend = dividend_of(width, high, low);
    let quotient = dividend / by as u64;
    if quotient >= width.modulus() {
        return None;
    }
    let remainder = dividend % by as u64;
    Some((quotient as u32, remainder as u32))
}

/// DIV, or IDIV where `signed`, of the dividend of twice the width with these halves: the quotient, truncated towards zero, and
/// the remainder, which has the dividend's sign (Intel 80386 manual, chapter 17). `None` is the divide error: the divisor is 0,
/// or the quotient doesn't fit the width. No flag changes.
pub fn divide(signed: bool, width: Width, high: u32, low: u32, by: u32) -> Option<(u32, u32)>
    requires high_fits { high < modulus width }
    requires low_fits { low < modulus width }
    requires by_fits { by < modulus width }
    ensures { result ≡ divide_of signed width high low by }
{
    if signed {
        divide_signed(width, high, low, by)
    } else {
        divide_unsigned(width, high, low, by)
    }
}
