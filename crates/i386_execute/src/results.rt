// What instructions take from their operands, and what making their one store comes to.
ghost use Rattle.std.specs.Prelude.{◌≡◌, ◌<◌, ◌%◌, ◌+◌, ◌^◌};
ghost use Rattle.i386_effects.specs.Effect.{came_to, changed, stored_or};
ghost use Rattle.i386_effects.specs.Operands.{value_of};
ghost use Rattle.i386_execute.specs.Results.{computed};
ghost use Rattle.i386_execute.specs.Unit.{moved_on};

use cpu_state::{Access, Bus, Eflags, Registers, Width};
use i386_decode::{Form, Operand};
use i386_effects::{Stepped, finish, value};

// An address so many bytes on.
pub(crate) fn onward(eip: u32, count: u32) -> u32
    ensures { result ≡ (eip + count) % 2 ^ 32 }
{
    eip.wrapping_add(count)
}

// A number of 8 bits that an operand gives: a count, a condition or a vector.
pub(crate) fn small(operand: &Operand, regs: &Registers) -> u8
    ensures { result ≡ value_of Width.W8 operand.now regs.now.general 0 }
{
    value(Width::W8, operand, &regs.general, 0) as u8
}

// A number of 16 bits that an operand gives: a port, or how many bytes RET drops.
pub(crate) fn port(operand: &Operand, regs: &Registers) -> u16
    ensures { result ≡ value_of Width.W16 operand.now regs.now.general 0 }
{
    value(Width::W16, operand, &regs.general, 0) as u16
}

// A condition that an operand gives.
pub(crate) fn code(operand: &Operand, regs: &Registers) -> u8
    ensures value { result ≡ value_of Width.W8 operand.now regs.now.general 0 % 16 }
    ensures small { result < 16 }
{
    small(operand, regs) % 16
}

// What making the one store came to.
pub(crate) fn made(outside: Option<u32>) -> Stepped
    ensures { result ≡ stored_or outside }
{
    match outside {
        None => Stepped::Next,
        Some(at) => Stepped::Outside(Access::Store, at),
    }
}

// Puts a result into the first operand, takes its flags and moves EIP behind an instruction of so many bytes, or does none of it.
pub(crate) fn complete<B: Bus>(
    value: u32,
    eflags: Eflags,
    form: &Form,
    length: u8,
    regs: &mut Registers,
    bus: &mut B,
) -> Stepped
    ensures effect { came_to result regs.new (B.state bus.new) ≡ changed B.ports regs.old (B.state bus.old) (computed form.now (moved_on length regs.old) (record { value = value; flags = eflags })) }
    ensures lenders { B.lenders bus.new ≡ B.lenders bus.old }
{
    let eip = onward(regs.eip, u32::from(length));
    made(finish(form.width, &form.first, value, eflags, eip, regs, bus))
}
