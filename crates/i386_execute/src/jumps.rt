// Conditional jumps and loops.
ghost use Rattle.std.specs.Prelude.{◌≡◌, ◌+◌, ◌%◌, ◌^◌, if◌then◌else◌};
ghost use Rattle.i386_effects.specs.Effect.{came_to};
ghost use Rattle.i386_effects.specs.Operands.{value_of};
ghost use Rattle.i386_execute.specs.Jumps.{branched, goes_on, looped, jumped_at_zero};
ghost use Rattle.i386_execute.specs.Unit.{onward, plain_row};

use crate::results::{code, onward};
use cpu_state::{Bus, ECX, Op, Registers, Width};
use i386_alu::condition;
use i386_decode::Form;
use i386_effects::{Stepped, value};

// Moves EIP behind an instruction of so many bytes, and by its displacement where a test holds.
fn jump_where(test: bool, form: &Form, length: u8, regs: &mut Registers)
    ensures { regs.new ≡ record regs.old { eip = if test then (onward regs.old.eip length + value_of Width.W32 form.now.first regs.old.general 0) % 2 ^ 32 else onward regs.old.eip length } }
{
    regs.eip = onward(regs.eip, u32::from(length));
    if test {
        let displacement = value(Width::W32, &form.first, &regs.general, 0);
        regs.eip = regs.eip.wrapping_add(displacement);
    }
}

// Jcc.
#[tactic(auto, unfolding(crate::specs::Jumps::branched))]
pub(crate) fn branch<B: Bus>(form: &Form, length: u8, regs: &mut Registers, bus: &mut B) -> Stepped
    ensures effect { came_to result regs.new (B.state bus.new) ≡ plain_row B.ports (branched form.now) length regs.old (B.state bus.old) }
    ensures lenders { B.lenders bus.new ≡ B.lenders bus.old }
{
    let holds = condition(code(&form.second, regs), regs.eflags);
    jump_where(holds, form, length, regs);
    Stepped::Next
}

// Whether ZF lets a loop go on.
fn goes_on(op: Op, zero: bool) -> bool
    ensures { result ≡ goes_on op zero }
{
    match op {
        Op::Loope => zero,
        Op::Loopne => !zero,
        _ => true,
    }
}

// LOOP, LOOPE and LOOPNE.
#[tactic(auto, unfolding(crate::specs::Jumps::looped))]
pub(crate) fn loop_back<B: Bus>(
    form: &Form,
    length: u8,
    regs: &mut Registers,
    bus: &mut B,
) -> Stepped
    ensures effect { came_to result regs.new (B.state bus.new) ≡ plain_row B.ports (looped form.now) length regs.old (B.state bus.old) }
    ensures lenders { B.lenders bus.new ≡ B.lenders bus.old }
{
    let count = regs.general[ECX].wrapping_sub(1);
    let test = count != 0 && goes_on(form.op, regs.eflags.zero);
    jump_where(test, form, length, regs);
    regs.general[ECX] = count;
    Stepped::Next
}

// JECXZ.
#[tactic(auto, unfolding(crate::specs::Jumps::jumped_at_zero))]
pub(crate) fn jump_at_zero<B: Bus>(
    form: &Form,
    length: u8,
    regs: &mut Registers,
    bus: &mut B,
) -> Stepped
    ensures effect { came_to result regs.new (B.state bus.new) ≡ plain_row B.ports (jumped_at_zero form.now) length regs.old (B.state bus.old) }
    ensures lenders { B.lenders bus.new ≡ B.lenders bus.old }
{
    let test = regs.general[ECX] == 0;
    jump_where(test, form, length, regs);
    Stepped::Next
}
