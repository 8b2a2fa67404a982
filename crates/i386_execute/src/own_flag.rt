// CLI, STI, PUSHF and POPF, performed.
ghost use Rattle.std.specs.Prelude.{◌≡◌, ◌≢◌, true};
ghost use Rattle.memory_model.specs.Laws.{SamePlace};
ghost use Rattle.i386_effects.specs.Effect.{came_to};
ghost use Rattle.i386_execute.specs.OwnFlag.{is_on_flag, flags_pushed, flags_popped, with_interrupt, flag_unit, IsNextOrOutside};
ghost use Rattle.i386_execute.specs.Stack.{top_touches};
ghost use Rattle.i386_execute.specs.Unit.{row, plain_row};

use crate::results::onward;
use crate::stack::{above, below};
use cpu_state::{Access, Bus, ESP, Eflags, Privileged, Registers, Width};
use i386_effects::Stepped;

// How many bytes PUSHF and POPF move on the stack.
const FLAGS_SIZE: u32 = 4;

// PUSHF.
fn push_flags<B: Bus>(length: u8, regs: &mut Registers, bus: &mut B) -> Stepped
    ensures effect { came_to result regs.new (B.state bus.new) ≡ plain_row B.ports flags_pushed length regs.old (B.state bus.old) }
    ensures lenders { B.lenders bus.new ≡ B.lenders bus.old }
{
    let at = below(regs, FLAGS_SIZE);
    if !bus.store(at, Width::W32, regs.eflags.word()) {
        return Stepped::Outside(Access::Store, at);
    }
    regs.general[ESP] = at;
    regs.eip = onward(regs.eip, u32::from(length));
    Stepped::Next
}

// POPF.
#[tactic(auto, unfolding(crate::specs::Stack::top_touches))]
fn pop_flags<B: Bus>(length: u8, regs: &mut Registers, bus: &mut B) -> Stepped
    ensures effect { came_to result regs.new (B.state bus.new) ≡ row B.ports (top_touches Width.W32) flags_popped length regs.old (B.state bus.old) }
    ensures lenders { B.lenders bus.new ≡ B.lenders bus.old }
{
    let top = regs.general[ESP];
    let word = match bus.load(top, Width::W32) {
        Some(word) => word,
        None => return Stepped::Outside(Access::Load, top),
    };
    regs.general[ESP] = above(regs, FLAGS_SIZE);
    regs.eflags = Eflags::from_word(word);
    regs.eip = onward(regs.eip, u32::from(length));
    Stepped::Next
}

// CLI and STI.
fn set_interrupt_flag<B: Bus>(
    interrupt: bool,
    length: u8,
    regs: &mut Registers,
    bus: &mut B,
) -> Stepped
    ensures effect { came_to result regs.new (B.state bus.new) ≡ plain_row B.ports (with_interrupt interrupt) length regs.old (B.state bus.old) }
    ensures lenders { B.lenders bus.new ≡ B.lenders bus.old }
{
    regs.eflags = regs.eflags.with_interrupt(interrupt);
    regs.eip = onward(regs.eip, u32::from(length));
    Stepped::Next
}

// Performs one of them: the effect alone.
#[tactic(auto, unfolding(crate::specs::OwnFlag::flag_unit, crate::specs::OwnFlag::flag_change))]
fn perform_on_flag<B: Bus>(
    kind: Privileged,
    length: u8,
    regs: &mut Registers,
    bus: &mut B,
) -> Stepped
    ensures effect { came_to result regs.new (B.state bus.new) ≡ flag_unit B.ports kind length regs.old (B.state bus.old) }
    ensures lenders { B.lenders bus.new ≡ B.lenders bus.old }
{
    match kind {
        Privileged::Cli => set_interrupt_flag(false, length, regs, bus),
        Privileged::Sti => set_interrupt_flag(true, length, regs, bus),
        Privileged::Pushf => push_flags(length, regs, bus),
        Privileged::Popf => pop_flags(length, regs, bus),
        Privileged::Iret => Stepped::Privileged(Privileged::Iret, length),
        Privileged::Hlt => Stepped::Privileged(Privileged::Hlt, length),
    }
}

/// Performs CLI, STI, PUSHF or POPF of so many bytes on the registers' own interrupt flag, which bit 9 of EFLAGS is (Intel
/// 80386 manual, section 2.3.4). No interrupt is held off behind STI. Where an access lies outside, nothing changes.
pub fn privileged<B: Bus>(
    kind: Privileged,
    length: u8,
    regs: &mut Registers,
    bus: &mut B,
) -> Stepped
    requires kind { is_on_flag kind ≡ true }
    ensures effect { came_to result regs.new (B.state bus.new) ≡ flag_unit B.ports kind length regs.old (B.state bus.old) }
    ensures answers { IsNextOrOutside result }
    ensures unchanged { result ≢ Stepped.Next → (regs.new ≡ regs.old) × (B.state bus.new ≡ B.state bus.old) }
    ensures place { SamePlace (B.state bus.old).side (B.state bus.new).side }
    ensures lenders { B.lenders bus.new ≡ B.lenders bus.old }
{
    perform_on_flag(kind, length, regs, bus)
}
