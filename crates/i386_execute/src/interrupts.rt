// Ports and interrupts.
ghost use Rattle.std.specs.Prelude.{◌≡◌};
ghost use Rattle.i386_effects.specs.Effect.{came_to};
ghost use Rattle.i386_execute.specs.Interrupts.{port_read, port_written, interrupted, interrupted_on_overflow};
ghost use Rattle.i386_execute.specs.Unit.{plain_row};

use crate::results::{onward, port, small};
use cpu_state::{Bus, Registers};
use i386_decode::Form;
use i386_effects::{ACCUMULATOR, Stepped, set_part, value};

/// The vectors of INT3 and INTO (Intel 80386 manual, section 9.1).
pub(crate) const BREAKPOINT: u8 = 3;

const OVERFLOW: u8 = 4;

// IN.
#[tactic(auto, unfolding(crate::specs::Interrupts::port_read))]
pub(crate) fn read_port<B: Bus>(
    form: &Form,
    length: u8,
    regs: &mut Registers,
    bus: &mut B,
) -> Stepped
    ensures effect { came_to result regs.new (B.state bus.new) ≡ plain_row B.ports (port_read form.now) length regs.old (B.state bus.old) }
    ensures lenders { B.lenders bus.new ≡ B.lenders bus.old }
{
    let place = port(&form.second, regs);
    match bus.port_in(place, form.width) {
        Some(answer) => {
            set_part(form.width, ACCUMULATOR, answer, &mut regs.general);
            regs.eip = onward(regs.eip, u32::from(length));
            Stepped::Next
        }
        None => Stepped::Port(place),
    }
}

// OUT.
#[tactic(auto, unfolding(crate::specs::Interrupts::port_written))]
pub(crate) fn write_port<B: Bus>(
    form: &Form,
    length: u8,
    regs: &mut Registers,
    bus: &mut B,
) -> Stepped
    ensures effect { came_to result regs.new (B.state bus.new) ≡ plain_row B.ports (port_written form.now) length regs.old (B.state bus.old) }
    ensures lenders { B.lenders bus.new ≡ B.lenders bus.old }
{
    let place = port(&form.first, regs);
    let value = value(form.width, &form.second, &regs.general, 0);
    if !bus.port_out(place, form.width, value) {
        return Stepped::Port(place);
    }
    regs.eip = onward(regs.eip, u32::from(length));
    Stepped::Next
}

// INT.
#[tactic(auto, unfolding(crate::specs::Interrupts::interrupted))]
pub(crate) fn interrupt<B: Bus>(
    form: &Form,
    length: u8,
    regs: &mut Registers,
    bus: &mut B,
) -> Stepped
    ensures effect { came_to result regs.new (B.state bus.new) ≡ plain_row B.ports (interrupted form.now) length regs.old (B.state bus.old) }
    ensures lenders { B.lenders bus.new ≡ B.lenders bus.old }
{
    Stepped::Interrupt(small(&form.first, regs))
}

// INTO.
#[tactic(auto, unfolding(crate::specs::Interrupts::interrupted_on_overflow))]
pub(crate) fn interrupt_on_overflow<B: Bus>(
    length: u8,
    regs: &mut Registers,
    bus: &mut B,
) -> Stepped
    ensures effect { came_to result regs.new (B.state bus.new) ≡ plain_row B.ports interrupted_on_overflow length regs.old (B.state bus.old) }
    ensures lenders { B.lenders bus.new ≡ B.lenders bus.old }
{
    if regs.eflags.overflow {
        return Stepped::Interrupt(OVERFLOW);
    }
    regs.eip = onward(regs.eip, u32::from(length));
    Stepped::Next
}
