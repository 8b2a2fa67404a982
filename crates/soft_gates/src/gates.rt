// The gates.
ghost use Rattle.std.specs.Prelude.{◌≡◌, ◌≤◌, ◌<◌, ◌+◌, ◌^◌, length};
ghost use Rattle.cpu_state.specs.Eflags.{bit};
ghost use Rattle.flat_memory.specs.Side.{side_of};
ghost use Rattle.soft_flags.specs.SoftFlags.{HasTableIn};
ghost use Rattle.soft_gates.specs.Gate.{gated, iret, pushf, popf, popped_flags};
ghost use Rattle.soft_gates.specs.Outcome.{outcome_of, WhenOutside, IsBoundedUnit};

use crate::calls::Call;
use crate::service::service;
use cpu_state::{Access, ESP, Eflags, Registers};
use flat_memory::Side;
use soft_flags::SoftFlags;

/// The numbers of the gates.
const CLI: u8 = 0xf0;

const STI: u8 = 0xf1;

const IRET: u8 = 0xf2;

const PUSHF: u8 = 0xf3;

const POPF: u8 = 0xf4;

const HLT: u8 = 0xf5;

/// What a gate comes to.
#[derive(Clone, Copy, Debug)]
pub enum GateUnit {
    /// The gate was performed.
    Finished,
    /// The gate was performed, and the guest is halted.
    Halted,
    /// The guest's timer gets this period, in ticks; 0 stops it. The gate was performed.
    Timer(u32),
    /// A call on a FIFO. Its result is to be left by `reply`.
    Calls(Call),
    /// The first access outside, and its address. Nothing changed.
    Outside(Access, u32),
}

// EFLAGS of a popped word, without the interrupt flag.
fn eflags_of(word: u32) -> Eflags
    ensures { result ≡ popped_flags word }
{
    Eflags::from_word(word).with_interrupt(false)
}

fn interrupt_flag(word: u32) -> bool
    ensures { result ≡ bit word 9 }
{
    Eflags::from_word(word).interrupt
}

fn perform_iret(regs: &mut Registers, flags: &mut SoftFlags, side: &Side<'_>) -> GateUnit
    ensures gated { record { came = outcome_of result; registers = regs.new; flags = flags.new; side = side_of side.now }
        ≡ iret regs.old flags.old (side_of side.now) }
    ensures unchanged { WhenOutside result ((regs.new ≡ regs.old) × (flags.new ≡ flags.old)) }
    ensures same_table { (flags.new.idt ≡ flags.old.idt) × (flags.new.entries ≡ flags.old.entries) }
{
    let top = regs.general[ESP];
    let eip = match side.load32(top) {
        Some(eip) => eip,
        None => return GateUnit::Outside(Access::Load, top),
    };
    let segment_at = top.wrapping_add(4);
    if side.load32(segment_at).is_none() {
        return GateUnit::Outside(Access::Load, segment_at);
    }
    let word_at = top.wrapping_add(8);
    let word = match side.load32(word_at) {
        Some(word) => word,
        None => return GateUnit::Outside(Access::Load, word_at),
    };
    regs.general[ESP] = top.wrapping_add(12);
    regs.eip = eip;
    regs.eflags = eflags_of(word);
    flags.set(interrupt_flag(word));
    GateUnit::Finished
}

fn perform_pushf(
    next: u32,
    regs: &mut Registers,
    flags: &mut SoftFlags,
    side: &mut Side<'_>,
) -> GateUnit
    ensures gated { record { came = outcome_of result; registers = regs.new; flags = flags.new; side = side_of side.new }
        ≡ pushf next regs.old flags.old (side_of side.old) }
    ensures first { side.new.first ≡ side.old.first }
    ensures same_loan { side.new.bytes.ghost_name ≡ side.old.bytes.ghost_name }
    ensures unchanged { WhenOutside result ((regs.new ≡ regs.old) × (flags.new ≡ flags.old) × (side_of side.new ≡ side_of side.old)) }
    ensures same_table { (flags.new.idt ≡ flags.old.idt) × (flags.new.entries ≡ flags.old.entries) }
{
    let at = regs.general[ESP].wrapping_sub(4);
    let word = regs.eflags.with_interrupt(flags.flag).word();
    if !side.store32(at, word) {
        return GateUnit::Outside(Access::Store, at);
    }
    regs.general[ESP] = at;
    regs.eip = next;
    flags.unit_done();
    GateUnit::Finished
}

fn perform_popf(next: u32, regs: &mut Registers, flags: &mut SoftFlags, side: &Side<'_>) -> GateUnit
    ensures gated { record { came = outcome_of result; registers = regs.new; flags = flags.new; side = side_of side.now }
        ≡ popf next regs.old flags.old (side_of side.now) }
    ensures unchanged { WhenOutside result ((regs.new ≡ regs.old) × (flags.new ≡ flags.old)) }
    ensures same_table { (flags.new.idt ≡ flags.old.idt) × (flags.new.entries ≡ flags.old.entries) }
{
    let top = regs.general[ESP];
    match side.load32(top) {
        Some(word) => {
            regs.general[ESP] = top.wrapping_add(4);
            regs.eip = next;
            regs.eflags = eflags_of(word);
            flags.set(interrupt_flag(word));
            GateUnit::Finished
        }
        None => GateUnit::Outside(Access::Load, top),
    }
}

/// Performs the gate of a number, F0h to F6h, in tick `now`. EIP becomes `next`, the address behind the gate, or what iret
/// pops. Where an access is outside, nothing changes.
#[tactic(auto, unfolding(crate::specs::Gate::gated))]
pub fn gate(
    number: u8,
    next: u32,
    now: u32,
    regs: &mut Registers,
    flags: &mut SoftFlags,
    side: &mut Side<'_>,
) -> GateUnit
    requires first { 0xf0 ≤ number }
    requires last { number ≤ 0xf6 }
    requires size { (side_of side.old).first + length (side_of side.old).bytes < 2 ^ 32 }
    ensures gated { record { came = outcome_of result; registers = regs.new; flags = flags.new; side = side_of side.new }
        ≡ gated number next now regs.old flags.old (side_of side.old) }
    ensures bounded { IsBoundedUnit (side_of side.new) result }
    ensures first { side.new.first ≡ side.old.first }
    ensures same_loan { side.new.bytes.ghost_name ≡ side.old.bytes.ghost_name }
    ensures unchanged { WhenOutside result ((regs.new ≡ regs.old) × (flags.new ≡ flags.old) × (side_of side.new ≡ side_of side.old)) }
    ensures table { let size = length (side_of side.old).bytes in HasTableIn flags.old size → HasTableIn flags.new size }
{
    match number {
        CLI => {
            regs.eip = next;
            flags.cli();
            GateUnit::Finished
        }
        STI => {
            regs.eip = next;
            flags.sti();
            GateUnit::Finished
        }
        IRET => perform_iret(regs, flags, side),
        PUSHF => perform_pushf(next, regs, flags, side),
        POPF => perform_popf(next, regs, flags, side),
        HLT => {
            regs.eip = next;
            flags.unit_done();
            GateUnit::Halted
        }
        _ => service(next, now, regs, flags, side),
    }
}
