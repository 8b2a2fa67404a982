// Bit tests and bit scans.
ghost use Rattle.std.specs.Prelude.{◌≡◌, ◌<◌, ◌^◌};
ghost use Rattle.cpu_state.specs.Width.{bits, modulus};
ghost use Rattle.cpu_state.specs.Eflags.{bit as bit_at_place};
ghost use Rattle.i386_alu.specs.Bit.{with_bit, without_bit, with_bit_turned, bit_of};
ghost use Rattle.i386_alu.specs.Scan.{lowest_set, highest_set, scan_of};

use cpu_state::{Eflags, Op, Width};

// The bit at a place.
fn bit_at(a: u32, place: u32) -> bool
    requires { place < 32 }
    ensures { result ≡ bit_at_place a place }
{
    a >> place & 1 == 1
}

// An operand with the bit at a place set.
#[tactic(auto, using(crate::proofs::BitLemmas::or_mask, crate::proofs::BitLemmas::with_bit_fits))]
fn with_bit(width: Width, a: u32, place: u32) -> u32
    requires a_fits { a < modulus width }
    requires place_fits { place < bits width }
    ensures value { result ≡ with_bit a place }
    ensures fits { result < modulus width }
{
    a | 1 << place
}

// An operand with the bit at a place clear.
#[tactic(auto, using(crate::proofs::BitLemmas::and_not_mask))]
fn without_bit(a: u32, place: u32) -> u32
    requires { place < 32 }
    ensures { result ≡ without_bit a place }
{
    a & !(1 << place)
}

// An operand with the bit at a place turned.
#[tactic(auto, using(crate::proofs::BitLemmas::xor_mask, crate::proofs::BitLemmas::with_bit_turned_fits))]
fn with_bit_turned(width: Width, a: u32, place: u32) -> u32
    requires a_fits { a < modulus width }
    requires place_fits { place < bits width }
    ensures value { result ≡ with_bit_turned a place }
    ensures fits { result < modulus width }
{
    a ^ 1 << place
}

/// BT, BTS, BTR or BTC of an operand at a place modulo its width: the operand with that bit as it was, set, clear or turned, and
/// the flags, of which only CF changes, to the old bit (Intel 80386 manual, chapter 17 and appendix C). Any other operation
/// gives `a` and the flags as they were.
#[tactic(auto, unfolding(crate::specs::Bit::bit_of))]
pub fn bit(op: Op, width: Width, a: u32, place: u8, flags: Eflags) -> (u32, Eflags)
    requires { a < modulus width }
    ensures value { result.0 ≡ (bit_of op width a place flags).value }
    ensures flags { result.1 ≡ (bit_of op width a place flags).flags }
    ensures fits { result.0 < modulus width }
{
    let place = place as u32 % width.bits();
    let after = Eflags {
        carry: bit_at(a, place),
        ..flags
    };
    match op {
        Op::Bt => (a, after),
        Op::Bts => (with_bit(width, a, place), after),
        Op::Btr => (without_bit(a, place), after),
        Op::Btc => (with_bit_turned(width, a, place), after),
        _ => (a, flags),
    }
}

// The place of the lowest bit that is set.
fn lowest_set(source: u32) -> u32
    requires { 0 < source }
    ensures place { result ≡ lowest_set source }
    ensures small { result < 32 }
{
    source.trailing_zeros()
}

// The place of the highest bit that is set.
fn highest_set(source: u32) -> u32
    requires { 0 < source }
    ensures place { result ≡ highest_set source }
    ensures small { result < 32 }
{
    31 - source.leading_zeros()
}

/// BSF or BSR: the place of the lowest or the highest bit of the source that is set, and the flags, of which only ZF changes, to
/// whether the source is 0; then the result is `old` (Intel 80386 manual, chapter 17 and appendix C). Any other operation gives
/// `old` and the flags as they were.
#[tactic(auto, unfolding(crate::specs::Scan::scan_of))]
pub fn scan(op: Op, width: Width, source: u32, old: u32, flags: Eflags) -> (u32, Eflags)
    requires source_fits { source < modulus width }
    requires old_fits { old < modulus width }
    ensures value { result.0 ≡ (scan_of op source old flags).value }
    ensures flags { result.1 ≡ (scan_of op source old flags).flags }
    ensures fits { result.0 < modulus width }
{
    let after = Eflags {
        zero: source == 0,
        ..flags
    };
    match op {
        Op::Bsf => (if source == 0 { old } else { lowest_set(source) }, after),
        Op::Bsr => (
            if source == 0 {
                old
            } else {
                highest_set(source)
            },
            after,
        ),
        _ => (old, flags),
    }
}
