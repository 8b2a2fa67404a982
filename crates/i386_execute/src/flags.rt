// Instructions on flags.
ghost use Rattle.std.specs.Prelude.{◌≡◌};
ghost use Rattle.i386_effects.specs.Effect.{came_to};
ghost use Rattle.i386_execute.specs.Flags.{flags_by, flag_changed, sahf_of, sahf, lahf};
ghost use Rattle.i386_execute.specs.Unit.{plain_row};

use crate::results::onward;
use cpu_state::{Bus, Eflags, Op, Registers, Width};
use i386_decode::Form;
use i386_effects::{AH, Stepped, part, set_part};

// The flags after CLC, STC, CMC, CLD or STD.
#[tactic(auto, unfolding(crate::specs::Flags::flags_by))]
fn flags_by(op: Op, eflags: Eflags) -> Eflags
    ensures { result ≡ flags_by op eflags }
{
    match op {
        Op::Clc => Eflags {
            carry: false,
            ..eflags
        },
        Op::Stc => Eflags {
            carry: true,
            ..eflags
        },
        Op::Cmc => Eflags {
            carry: !eflags.carry,
            ..eflags
        },
        Op::Cld => Eflags {
            direction: false,
            ..eflags
        },
        Op::Std => Eflags {
            direction: true,
            ..eflags
        },
        _ => eflags,
    }
}

// CLC, STC, CMC, CLD and STD.
#[tactic(auto, unfolding(crate::specs::Flags::flag_changed))]
pub(crate) fn change_flag<B: Bus>(
    form: &Form,
    length: u8,
    regs: &mut Registers,
    bus: &mut B,
) -> Stepped
    ensures effect { came_to result regs.new (B.state bus.new) ≡ plain_row B.ports (flag_changed form.now) length regs.old (B.state bus.old) }
    ensures lenders { B.lenders bus.new ≡ B.lenders bus.old }
{
    regs.eflags = flags_by(form.op, regs.eflags);
    regs.eip = onward(regs.eip, u32::from(length));
    Stepped::Next
}

// SF, ZF, AF, PF and CF of a byte.
fn sahf_of(byte: u32, eflags: Eflags) -> Eflags
    ensures { result ≡ sahf_of byte eflags }
{
    let from = Eflags::from_word(byte);
    Eflags {
        carry: from.carry,
        parity: from.parity,
        adjust: from.adjust,
        zero: from.zero,
        sign: from.sign,
        ..eflags
    }
}

// SAHF.
#[tactic(auto, unfolding(crate::specs::Flags::sahf))]
pub(crate) fn take_flags<B: Bus>(length: u8, regs: &mut Registers, bus: &mut B) -> Stepped
    ensures effect { came_to result regs.new (B.state bus.new) ≡ plain_row B.ports sahf length regs.old (B.state bus.old) }
    ensures lenders { B.lenders bus.new ≡ B.lenders bus.old }
{
    let byte = part(Width::W8, AH, &regs.general);
    regs.eflags = sahf_of(byte, regs.eflags);
    regs.eip = onward(regs.eip, u32::from(length));
    Stepped::Next
}

// LAHF.
#[tactic(auto, unfolding(crate::specs::Flags::lahf))]
pub(crate) fn give_flags<B: Bus>(length: u8, regs: &mut Registers, bus: &mut B) -> Stepped
    ensures effect { came_to result regs.new (B.state bus.new) ≡ plain_row B.ports lahf length regs.old (B.state bus.old) }
    ensures lenders { B.lenders bus.new ≡ B.lenders bus.old }
{
    let byte = regs.eflags.word() % 0x100;
    set_part(Width::W8, AH, byte, &mut regs.general);
    regs.eip = onward(regs.eip, u32::from(length));
    Stepped::Next
}
