// Addition, subtraction, comparison, logic and shifts.
ghost use Rattle.std.specs.Prelude.{◌≡◌, ◌≤◌, ◌+◌};
ghost use Rattle.i386_decode.specs.WellFormed.{memory_count};
ghost use Rattle.i386_effects.specs.Effect.{came_to};
ghost use Rattle.i386_execute.specs.Arithmetic.{combined, compared, altered, shifted, double_shifted};
ghost use Rattle.i386_execute.specs.Loads.{first_touches, both_touches};
ghost use Rattle.i386_execute.specs.Unit.{row};

use crate::results::{complete, onward, small};
use cpu_state::{Access, Bus, Registers};
use i386_alu::{binary, double_shift, shift, unary};
use i386_decode::Form;
use i386_effects::{Stepped, read, value};

// ADD, OR, ADC, SBB, AND, SUB, XOR.
#[tactic(auto, unfolding(crate::specs::Arithmetic::combined, crate::specs::Loads::both_touches))]
pub(crate) fn combine<B: Bus>(form: &Form, length: u8, regs: &mut Registers, bus: &mut B) -> Stepped
    requires { memory_count form.now.first + memory_count form.now.second ≤ 1 }
    ensures effect { came_to result regs.new (B.state bus.new) ≡ row B.ports (both_touches form.now) (combined form.now) length regs.old (B.state bus.old) }
    ensures lenders { B.lenders bus.new ≡ B.lenders bus.old }
{
    let a = match read(form.width, &form.first, &regs.general, bus) {
        Ok(a) => a,
        Err(at) => return Stepped::Outside(Access::Load, at),
    };
    let b = match read(form.width, &form.second, &regs.general, bus) {
        Ok(b) => b,
        Err(at) => return Stepped::Outside(Access::Load, at),
    };
    let (value, eflags) = binary(form.op, form.width, a, b, regs.eflags);
    complete(value, eflags, form, length, regs, bus)
}

// CMP and TEST.
#[tactic(auto, unfolding(crate::specs::Arithmetic::compared, crate::specs::Loads::both_touches))]
pub(crate) fn compare<B: Bus>(form: &Form, length: u8, regs: &mut Registers, bus: &mut B) -> Stepped
    requires { memory_count form.now.first + memory_count form.now.second ≤ 1 }
    ensures effect { came_to result regs.new (B.state bus.new) ≡ row B.ports (both_touches form.now) (compared form.now) length regs.old (B.state bus.old) }
    ensures lenders { B.lenders bus.new ≡ B.lenders bus.old }
{
    let a = match read(form.width, &form.first, &regs.general, bus) {
        Ok(a) => a,
        Err(at) => return Stepped::Outside(Access::Load, at),
    };
    let b = match read(form.width, &form.second, &regs.general, bus) {
        Ok(b) => b,
        Err(at) => return Stepped::Outside(Access::Load, at),
    };
    let (_, eflags) = binary(form.op, form.width, a, b, regs.eflags);
    regs.eflags = eflags;
    regs.eip = onward(regs.eip, u32::from(length));
    Stepped::Next
}

// INC, DEC, NOT, NEG.
#[tactic(auto, unfolding(crate::specs::Arithmetic::altered, crate::specs::Loads::first_touches))]
pub(crate) fn alter<B: Bus>(form: &Form, length: u8, regs: &mut Registers, bus: &mut B) -> Stepped
    ensures effect { came_to result regs.new (B.state bus.new) ≡ row B.ports (first_touches form.now) (altered form.now) length regs.old (B.state bus.old) }
    ensures lenders { B.lenders bus.new ≡ B.lenders bus.old }
{
    let a = match read(form.width, &form.first, &regs.general, bus) {
        Ok(a) => a,
        Err(at) => return Stepped::Outside(Access::Load, at),
    };
    let (value, eflags) = unary(form.op, form.width, a, regs.eflags);
    complete(value, eflags, form, length, regs, bus)
}

// ROL, ROR, RCL, RCR, SHL, SHR, SAR.
#[tactic(auto, unfolding(crate::specs::Arithmetic::shifted, crate::specs::Loads::first_touches))]
pub(crate) fn shift_operand<B: Bus>(
    form: &Form,
    length: u8,
    regs: &mut Registers,
    bus: &mut B,
) -> Stepped
    ensures effect { came_to result regs.new (B.state bus.new) ≡ row B.ports (first_touches form.now) (shifted form.now) length regs.old (B.state bus.old) }
    ensures lenders { B.lenders bus.new ≡ B.lenders bus.old }
{
    let a = match read(form.width, &form.first, &regs.general, bus) {
        Ok(a) => a,
        Err(at) => return Stepped::Outside(Access::Load, at),
    };
    let count = small(&form.second, regs);
    let (value, eflags) = shift(form.op, form.width, a, count, regs.eflags);
    complete(value, eflags, form, length, regs, bus)
}

// SHLD and SHRD.
#[tactic(auto, unfolding(crate::specs::Arithmetic::double_shifted, crate::specs::Loads::first_touches))]
pub(crate) fn double_shift_operand<B: Bus>(
    form: &Form,
    length: u8,
    regs: &mut Registers,
    bus: &mut B,
) -> Stepped
    requires { memory_count form.now.first + memory_count form.now.second ≤ 1 }
    ensures effect { came_to result regs.new (B.state bus.new) ≡ row B.ports (first_touches form.now) (double_shifted form.now) length regs.old (B.state bus.old) }
    ensures lenders { B.lenders bus.new ≡ B.lenders bus.old }
{
    let a = match read(form.width, &form.first, &regs.general, bus) {
        Ok(a) => a,
        Err(at) => return Stepped::Outside(Access::Load, at),
    };
    let b = value(form.width, &form.second, &regs.general, 0);
    let count = small(&form.third, regs);
    let (value, eflags) = double_shift(form.op, form.width, a, b, count, regs.eflags);
    complete(value, eflags, form, length, regs, bus)
}
