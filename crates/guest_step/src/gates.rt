// The guest's gates.
ghost use Rattle.std.specs.Prelude.{◌≡◌, ◌≤◌, ◌<◌, ◌^◌, length};
ghost use Rattle.flat_memory.specs.Side.{side_at};
ghost use Rattle.breach_monitor.specs.GuestUnit.{first_gate, last_gate};
ghost use Rattle.soft_flags.specs.SoftFlags.{HasTableIn};
ghost use Rattle.soft_gates.specs.Gate.{gated};
ghost use Rattle.soft_gates.specs.Outcome.{outcome_of, WhenOutside, IsBoundedUnit};
ghost use Rattle.bare_machine.specs.Unit.{gate as gate_of};
ghost use Rattle.machine_state.specs.Parts.{guest_side};
ghost use Rattle.guest_step.specs.Leaves.{parts, bare_marked, CanBegin, Leaves, Times};

use crate::calls::perform_call;
use crate::kinds::access_kind;
use crate::timer::set_timer;
use cpu_state::Registers;
use flat_memory::{FlatMemory, Side};
use machine_state::{DueChange, Guest};
use rt_fifos::Fifos;
use rt_timeline::Timeline;
use soft_flags::SoftFlags;
use soft_gates::{GateUnit, gate};
use trace_lines::{BreachKind, GLine, Lines, Mode};

// A gate over bytes from address 0 on.
fn gate_on(
    number: u8,
    next: u32,
    now: u32,
    registers: &mut Registers,
    soft: &mut SoftFlags,
    bytes: &mut [u8],
) -> GateUnit
    requires first { first_gate ≤ number }
    requires last { number ≤ last_gate }
    requires size { length bytes.old < 2 ^ 32 }
    requires table { HasTableIn soft.old (length bytes.old) }
    ensures gated { record { came = outcome_of result; registers = registers.new; flags = soft.new; side = side_at 0 bytes.new }
        ≡ gated number next now registers.old soft.old (side_at 0 bytes.old) }
    ensures unchanged { WhenOutside result ((registers.new ≡ registers.old) × (soft.new ≡ soft.old) × (bytes.new ≡ bytes.old)) }
    ensures bounded { IsBoundedUnit (side_at 0 bytes.new) result }
    ensures table { HasTableIn soft.new (length bytes.old) }
{
    let mut side = Side::new(0, bytes);
    gate(number, next, now, registers, soft, &mut side)
}

// A gate over the guest's part of the memory.
fn gate_over(
    number: u8,
    next: u32,
    now: u32,
    memory: &mut FlatMemory,
    registers: &mut Registers,
    soft: &mut SoftFlags,
) -> GateUnit
    requires first { first_gate ≤ number }
    requires last { number ≤ last_gate }
    requires size { length memory.old.guest < 2 ^ 32 }
    requires table { HasTableIn soft.old (length memory.old.guest) }
    ensures gated { record { came = outcome_of result; registers = registers.new; flags = soft.new; side = guest_side memory.new }
        ≡ gated number next now registers.old soft.old (guest_side memory.old) }
    ensures unchanged { WhenOutside result ((registers.new ≡ registers.old) × (soft.new ≡ soft.old) × (memory.new ≡ memory.old)) }
    ensures bounded { IsBoundedUnit (guest_side memory.new) result }
    ensures table { HasTableIn soft.new (length memory.new.guest) }
    ensures size { length memory.new.guest ≡ length memory.old.guest }
    ensures real_time { memory.new.real_time ≡ memory.old.real_time }
{
    gate_on(number, next, now, registers, soft, memory.guest())
}

/// A gate of a guest in tick `now`, with its line, if it has one, and that of the answer to its call. It goes on at `next`. Answers whether
/// the dues may have changed.
pub fn perform_gate(
    number: u8,
    next: u32,
    now: u32,
    memory: &mut FlatMemory,
    registers: &mut Registers,
    guest: &mut Guest,
    timeline: &mut Timeline,
    fifos: &mut Fifos,
    lines: &mut Lines,
) -> DueChange
    requires first { first_gate ≤ number }
    requires last { number ≤ last_gate }
    requires can_begin { CanBegin (parts memory.old registers.old guest.old lines.old) }
    ensures leaves { let old = parts memory.old registers.old guest.old lines.old in
        let new = parts memory.new registers.new guest.new lines.new in
        (com1 : _) → Leaves (gate_of now number next (bare_marked old com1)) com1 new.guest.pending fifos.old fifos.new old new }
    ensures edges { lines.new.h ≡ lines.old.h }
    ensures times { Times now result guest.old guest.new timeline.old timeline.new }
{
    match gate_over(number, next, now, memory, registers, &mut guest.soft) {
        GateUnit::Finished => DueChange::Same,
        GateUnit::Halted => {
            guest.mode = Mode::Halted;
            lines.push_g(GLine::Halt);
            DueChange::Same
        }
        GateUnit::Timer(period) => DueChange::Was(set_timer(now, period, guest, timeline)),
        GateUnit::Calls(call) => {
            perform_call(&call, memory, registers, fifos, lines);
            DueChange::Same
        }
        GateUnit::Outside(access, at) => {
            guest.mode = Mode::Stopped;
            lines.push_g(GLine::Breach(access_kind(access, at)));
            DueChange::Same
        }
    }
}
