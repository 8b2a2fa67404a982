// Multiplication and division.
ghost use Rattle.std.specs.Prelude.{◌≡◌, ◌≤◌, ◌<◌, ◌+◌, true, false};
ghost use Rattle.cpu_state.specs.Width.{modulus};
ghost use Rattle.i386_decode.specs.WellFormed.{memory_count};
ghost use Rattle.i386_alu.specs.Product.{multiply_of};
ghost use Rattle.i386_effects.specs.Effect.{came_to, changed};
ghost use Rattle.i386_execute.specs.Loads.{first_touches, both_touches};
ghost use Rattle.i386_execute.specs.Products.{high_half, with_halves, multiplied_with, multiplied, times, multiplied_by, signed_multiplied, divided};
ghost use Rattle.i386_execute.specs.Unit.{moved_on, row};

use crate::results::{complete, onward};
use crate::unit::DIVIDE_ERROR;
use cpu_state::{Access, Bus, Registers, Width};
use i386_alu::{divide, multiply};
use i386_decode::{Form, Operand};
use i386_effects::{ACCUMULATOR, AH, DATA, Stepped, part, read, set_part, value};

// The register of the high half: AH, DX or EDX.
fn high_half(width: Width) -> u8
    ensures { result ≡ high_half width }
{
    match width {
        Width::W8 => AH,
        Width::W16 => DATA,
        Width::W32 => DATA,
    }
}

// Puts both halves in their places.
fn set_halves(width: Width, low: u32, high: u32, general: &mut [u32; 8])
    ensures { general.new ≡ with_halves width low high general.old }
{
    set_part(width, ACCUMULATOR, low, general);
    set_part(width, high_half(width), high, general);
}

// AL, AX or EAX by a factor: both halves of the product.
fn multiply_accumulator<B: Bus>(
    signed: bool,
    by: u32,
    form: &Form,
    length: u8,
    regs: &mut Registers,
    bus: &mut B,
) -> Stepped
    requires { by < modulus form.now.width }
    ensures effect { let r = moved_on length regs.old in came_to result regs.new (B.state bus.new) ≡ changed B.ports regs.old (B.state bus.old) (multiplied_with signed form.now r by) }
    ensures lenders { B.lenders bus.new ≡ B.lenders bus.old }
{
    let a = part(form.width, ACCUMULATOR, &regs.general);
    let (low, high, eflags) = multiply(signed, form.width, a, by, regs.eflags);
    set_halves(form.width, low, high, &mut regs.general);
    regs.eflags = eflags;
    regs.eip = onward(regs.eip, u32::from(length));
    Stepped::Next
}

// A signed product, of which the low half goes into the first operand.
fn multiply_into_first<B: Bus>(
    a: u32,
    b: u32,
    form: &Form,
    length: u8,
    regs: &mut Registers,
    bus: &mut B,
) -> Stepped
    requires a_fits { a < modulus form.now.width }
    requires b_fits { b < modulus form.now.width }
    ensures effect { let r = moved_on length regs.old in came_to result regs.new (B.state bus.new) ≡ changed B.ports regs.old (B.state bus.old) (times form.now r (multiply_of true form.now.width a b r.eflags)) }
    ensures lenders { B.lenders bus.new ≡ B.lenders bus.old }
{
    let (low, _, eflags) = multiply(true, form.width, a, b, regs.eflags);
    complete(low, eflags, form, length, regs, bus)
}

// MUL.
#[tactic(auto, unfolding(crate::specs::Products::multiplied, crate::specs::Loads::first_touches))]
pub(crate) fn multiply_operand<B: Bus>(
    form: &Form,
    length: u8,
    regs: &mut Registers,
    bus: &mut B,
) -> Stepped
    ensures effect { came_to result regs.new (B.state bus.new) ≡ row B.ports (first_touches form.now) (multiplied false form.now) length regs.old (B.state bus.old) }
    ensures lenders { B.lenders bus.new ≡ B.lenders bus.old }
{
    let a = match read(form.width, &form.first, &regs.general, bus) {
        Ok(a) => a,
        Err(at) => return Stepped::Outside(Access::Load, at),
    };
    multiply_accumulator(false, a, form, length, regs, bus)
}

// IMUL of one, two or three operands, of which the first two have these values.
fn multiply_by_count<B: Bus>(
    a: u32,
    b: u32,
    form: &Form,
    length: u8,
    regs: &mut Registers,
    bus: &mut B,
) -> Stepped
    requires a_fits { a < modulus form.now.width }
    requires b_fits { b < modulus form.now.width }
    ensures effect { let r = moved_on length regs.old in came_to result regs.new (B.state bus.new) ≡ changed B.ports regs.old (B.state bus.old) (multiplied_by form.now.second form.now.third form.now r a b) }
    ensures lenders { B.lenders bus.new ≡ B.lenders bus.old }
{
    match (&form.second, &form.third) {
        (Operand::Absent, _) => multiply_accumulator(true, a, form, length, regs, bus),
        (_, Operand::Absent) => multiply_into_first(a, b, form, length, regs, bus),
        (_, by) => {
            let by = value(form.width, by, &regs.general, 0);
            multiply_into_first(b, by, form, length, regs, bus)
        }
    }
}

// IMUL.
#[tactic(auto, unfolding(crate::specs::Products::signed_multiplied, crate::specs::Loads::both_touches))]
pub(crate) fn multiply_signed<B: Bus>(
    form: &Form,
    length: u8,
    regs: &mut Registers,
    bus: &mut B,
) -> Stepped
    requires { memory_count form.now.first + memory_count form.now.second ≤ 1 }
    ensures effect { came_to result regs.new (B.state bus.new) ≡ row B.ports (both_touches form.now) (signed_multiplied form.now) length regs.old (B.state bus.old) }
    ensures lenders { B.lenders bus.new ≡ B.lenders bus.old }
{
    let a = match read(form.width, &form.first, &regs.general, bus) {
        Ok(a) => a,
        Err(at) => return Stepped::Outside(Access::Load, at),
    };
    let b = match read(form.width, &form.second, &regs.general, bus) {
        Ok(b) => b,
        Err(at) => return Stepped::Outside(Access::Load, at),
    };
    multiply_by_count(a, b, form, length, regs, bus)
}

// DIV and IDIV.
#[tactic(auto, unfolding(crate::specs::Products::divided, crate::specs::Loads::first_touches))]
pub(crate) fn divide_accumulator<B: Bus>(
    signed: bool,
    form: &Form,
    length: u8,
    regs: &mut Registers,
    bus: &mut B,
) -> Stepped
    ensures effect { came_to result regs.new (B.state bus.new) ≡ row B.ports (first_touches form.now) (divided signed form.now) length regs.old (B.state bus.old) }
    ensures lenders { B.lenders bus.new ≡ B.lenders bus.old }
{
    let a = match read(form.width, &form.first, &regs.general, bus) {
        Ok(a) => a,
        Err(at) => return Stepped::Outside(Access::Load, at),
    };
    let high = part(form.width, high_half(form.width), &regs.general);
    let low = part(form.width, ACCUMULATOR, &regs.general);
    match divide(signed, form.width, high, low, a) {
        Some((quotient, remainder)) => {
            set_halves(form.width, quotient, remainder, &mut regs.general);
            regs.eip = onward(regs.eip, u32::from(length));
            Stepped::Next
        }
        None => Stepped::Trap(DIVIDE_ERROR),
    }
}
