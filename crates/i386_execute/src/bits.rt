// Bit tests and bit scans.
ghost use Rattle.std.specs.Prelude.{◌≡◌, ◌≤◌, ◌<◌, ◌^◌, ◌+◌, ◌%◌, ℕ, Option, Ok};
ghost use Rattle.cpu_state.specs.Width.{modulus};
ghost use Rattle.i386_decode.specs.WellFormed.{memory_count};
ghost use Rattle.i386_effects.specs.Effect.{came_to};
ghost use Rattle.i386_execute.specs.Bits.{bytes_away, tested_at, tested_read, tested_touches, tested, bit_changed, scanned};
ghost use Rattle.i386_execute.specs.Loads.{second_touches};
ghost use Rattle.i386_execute.specs.Unit.{row};

use crate::results::{complete, onward};
use cpu_state::{Access, Bus, Registers, Width};
use i386_alu::{bit, scan};
use i386_decode::{Form, Operand};
use i386_effects::{Stepped, address, part, read, set, value};

// How many bytes away the operand stands that holds a bit, modulo 2^32.
fn bytes_away(width: Width, number: u32) -> u64
    requires { number < modulus width }
    ensures value { result ≡ bytes_away width number }
    ensures small { result < 2 ^ 33 }
{
    let away = (number / width.bits() * width.bytes()) as u64;
    if width.top_bit(number) {
        away + (0x1_0000_0000 - width.modulus() / 8)
    } else {
        away
    }
}

// Where the tested operand stands, if in memory.
fn tested_at(width: Width, operand: &Operand, number: &Operand, general: &[u32; 8]) -> Option<u32>
    ensures { result ≡ tested_at width operand.now number.now general.now }
{
    match operand {
        Operand::Memory(place) => match number {
            Operand::Register(r) => {
                let away = bytes_away(width, part(width, *r, general));
                Some(((address(place, general) as u64 + away) % 0x1_0000_0000) as u32)
            }
            _ => Some(address(place, general)),
        },
        _ => None,
    }
}

// The operand of which a bit is tested, or the address where it lies outside.
fn read_tested<B: Bus>(
    form: &Form,
    place: Option<u32>,
    general: &[u32; 8],
    bus: &B,
) -> Result<u32, u32>
    ensures value { result ≡ tested_read (B.state bus.now).side form.now.width form.now.first place general.now }
    ensures fits { (a : ℕ) → result ≡ Ok a → a < modulus form.now.width }
{
    match place {
        Some(at) => match bus.load(at, form.width) {
            Some(word) => Ok(value(form.width, &form.first, general, word)),
            None => Err(at),
        },
        None => Ok(value(form.width, &form.first, general, 0)),
    }
}

// BT.
#[tactic(auto, unfolding(crate::specs::Bits::tested, crate::specs::Bits::tested_touches))]
pub(crate) fn test_bit<B: Bus>(
    form: &Form,
    length: u8,
    regs: &mut Registers,
    bus: &mut B,
) -> Stepped
    ensures effect { came_to result regs.new (B.state bus.new) ≡ row B.ports (tested_touches form.now) (tested form.now) length regs.old (B.state bus.old) }
    ensures lenders { B.lenders bus.new ≡ B.lenders bus.old }
{
    let place = tested_at(form.width, &form.first, &form.second, &regs.general);
    let a = match read_tested(form, place, &regs.general, bus) {
        Ok(a) => a,
        Err(at) => return Stepped::Outside(Access::Load, at),
    };
    let number = value(form.width, &form.second, &regs.general, 0);
    let number = (number % form.width.bits()) as u8;
    let (_, eflags) = bit(form.op, form.width, a, number, regs.eflags);
    regs.eflags = eflags;
    regs.eip = onward(regs.eip, u32::from(length));
    Stepped::Next
}

// BTS, BTR and BTC.
#[tactic(auto, unfolding(crate::specs::Bits::bit_changed, crate::specs::Bits::tested_touches))]
pub(crate) fn change_bit<B: Bus>(
    form: &Form,
    length: u8,
    regs: &mut Registers,
    bus: &mut B,
) -> Stepped
    ensures effect { came_to result regs.new (B.state bus.new) ≡ row B.ports (tested_touches form.now) (bit_changed form.now) length regs.old (B.state bus.old) }
    ensures lenders { B.lenders bus.new ≡ B.lenders bus.old }
{
    let place = tested_at(form.width, &form.first, &form.second, &regs.general);
    let a = match read_tested(form, place, &regs.general, bus) {
        Ok(a) => a,
        Err(at) => return Stepped::Outside(Access::Load, at),
    };
    let number = value(form.width, &form.second, &regs.general, 0);
    let number = (number % form.width.bits()) as u8;
    let (value, eflags) = bit(form.op, form.width, a, number, regs.eflags);
    match place {
        Some(at) => {
            if !bus.store(at, form.width, value) {
                return Stepped::Outside(Access::Store, at);
            }
        }
        None => set(form.width, &form.first, value, &mut regs.general),
    }
    regs.eflags = eflags;
    regs.eip = onward(regs.eip, u32::from(length));
    Stepped::Next
}

// BSF and BSR.
#[tactic(auto, unfolding(crate::specs::Bits::scanned, crate::specs::Loads::second_touches))]
pub(crate) fn scan_bits<B: Bus>(
    form: &Form,
    length: u8,
    regs: &mut Registers,
    bus: &mut B,
) -> Stepped
    requires { memory_count form.now.first + memory_count form.now.second ≤ 1 }
    ensures effect { came_to result regs.new (B.state bus.new) ≡ row B.ports (second_touches form.now) (scanned form.now) length regs.old (B.state bus.old) }
    ensures lenders { B.lenders bus.new ≡ B.lenders bus.old }
{
    let source = match read(form.width, &form.second, &regs.general, bus) {
        Ok(source) => source,
        Err(at) => return Stepped::Outside(Access::Load, at),
    };
    let old = value(form.width, &form.first, &regs.general, 0);
    let (value, eflags) = scan(form.op, form.width, source, old, regs.eflags);
    complete(value, eflags, form, length, regs, bus)
}
