// A gate from the registers to the registers.
ghost use Rattle.std.specs.Prelude.{◌≡◌, ◌<◌, ◌+◌, ◌^◌, ℕ, length};
ghost use Rattle.line_sets.specs.LineSet.{union};
ghost use Rattle.cpu_state.specs.Registers.{eax, ebx};
ghost use Rattle.pic_8259.specs.Boot.{IsBooted};
ghost use Rattle.pic_8259.specs.Controllers.{IsPair, latch_of};
ghost use Rattle.flat_memory.specs.Side.{side_of};
ghost use Rattle.hard_dispatch.specs.Sets.{asked_lines};
ghost use Rattle.gate_table.specs.Gates.{gate as gate_by_table, gate_row, range_of, request_of};
ghost use Rattle.gate_table.specs.Names.{gate_of};
ghost use Rattle.executive.specs.Agreement.{Agrees};
ghost use Rattle.executive.specs.Parts.{gate_parts};
ghost use Rattle.irq_gates.specs.Owners.{owner_changes, taken_of, without_taken};
ghost use Rattle.module_gates.specs.Callers.{who, IsLiveCaller};
ghost use Rattle.module_gates.specs.Effects.{acknowledged_by, answered, asked_after, asked_by, count_printed, marked_by, printed_by, registers_after, CountsPrinted, HasZerosBehind, IsZeroBehind, WhenOutside};
ghost use Rattle.module_gates.specs.Ranges.{IsInRange};

use crate::effect::{answer, with_text};
use crate::ranges::{Admission, admit, request};
use crate::rows::row;
use crate::{Caller, Effect, ModuleUnit};
use cpu_state::{EAX, Registers};
use executive::Executive;
use flat_memory::Side;
use gate_table::{GateName, Request, gate_name};
use pic_8259::Pair;
use rt_constants::{EINVAL, failed};

// The effect of a gate whose range fits, if it has one. What it prints is read before its row.
fn effect_of(
    now: u32,
    caller: Caller,
    name: GateName,
    q: &Request,
    all: &mut Executive,
    side: &mut Side<'_>,
    pair: &mut Pair,
) -> Effect
    requires tick { now < 2 ^ 31 }
    requires caller { IsLiveCaller caller all.old.threads }
    requires range { IsInRange (side_of side.old) (range_of q.now name) }
    requires agrees { Agrees all.old }
    requires booted { IsBooted pair.old }
    requires pair { IsPair pair.old }
    ensures answer { gate_row now (who caller) q.now (gate_parts (latch_of pair.old) (side_of side.old) all.old) name
        ≡ record { result = result.result; printed = printed_by name result; after = gate_parts (latch_of pair.new) (side_of side.new) all.new } }
    ensures said { result.said ≡ count_printed (printed_by name result) }
    ensures text { IsZeroBehind result }
    ensures acknowledged { result.acknowledged ≡ taken_of (latch_of pair.old) (owner_changes all.old.irqs all.new.irqs) }
    ensures latches { latch_of pair.new ≡ without_taken result.acknowledged (latch_of pair.old) }
    ensures asked { (pending : ℕ) → asked_lines (latch_of pair.new) all.new.irqs (union pending result.guest)
        ≡ asked_after name q.now.ebx result.result (asked_lines (latch_of pair.old) all.old.irqs pending) }
    ensures booted { IsBooted pair.new }
    ensures kept { IsPair pair.new }
    ensures agrees { Agrees all.new }
    ensures guest { all.new.timeline.guest ≡ all.old.timeline.guest }
    ensures version { all.new.ready.version ≡ all.old.ready.version }
    ensures first { side.new.first ≡ side.old.first }
    ensures same_loan { side.new.bytes.ghost_name ≡ side.old.bytes.ghost_name }
{
    let mut effect = with_text(name, q, side);
    let line = row(now, caller, name, q, all, side, pair);
    effect.result = line.result;
    effect.guest = line.guest;
    effect.acknowledged = line.acknowledged;
    effect
}

// The gate of this name, but for the registers.
fn unit_of(
    now: u32,
    caller: Caller,
    name: GateName,
    q: &Request,
    all: &mut Executive,
    side: &mut Side<'_>,
    pair: &mut Pair,
) -> ModuleUnit
    requires tick { now < 2 ^ 31 }
    requires caller { IsLiveCaller caller all.old.threads }
    requires agrees { Agrees all.old }
    requires booted { IsBooted pair.old }
    requires pair { IsPair pair.old }
    requires side { (side_of side.old).first + length (side_of side.old).bytes < 2 ^ 32 }
    ensures outcome { gate_by_table now (who caller) q.now (gate_parts (latch_of pair.old) (side_of side.old) all.old) name
        ≡ answered name result (gate_parts (latch_of pair.new) (side_of side.new) all.new) }
    ensures outside { WhenOutside result ((all.new ≡ all.old) × (side_of side.new ≡ side_of side.old) × (pair.new ≡ pair.old)) }
    ensures said { CountsPrinted name result }
    ensures text { HasZerosBehind result }
    ensures acknowledged { acknowledged_by result ≡ taken_of (latch_of pair.old) (owner_changes all.old.irqs all.new.irqs) }
    ensures latches { latch_of pair.new ≡ without_taken (acknowledged_by result) (latch_of pair.old) }
    ensures asked { (pending : ℕ) → asked_lines (latch_of pair.new) all.new.irqs (union pending (marked_by result))
        ≡ asked_by name q.now.ebx result (asked_lines (latch_of pair.old) all.old.irqs pending) }
    ensures booted { IsBooted pair.new }
    ensures kept { IsPair pair.new }
    ensures agrees { Agrees all.new }
    ensures guest { all.new.timeline.guest ≡ all.old.timeline.guest }
    ensures version { all.new.ready.version ≡ all.old.ready.version }
    ensures first { side.new.first ≡ side.old.first }
    ensures same_loan { side.new.bytes.ghost_name ≡ side.old.bytes.ghost_name }
{
    match admit(name, q, side) {
        Admission::Outside => ModuleUnit::Outside,
        Admission::TooLong => ModuleUnit::Answered(answer(failed(EINVAL))),
        Admission::Fits => {
            ModuleUnit::Answered(effect_of(now, caller, name, q, all, side, pair))
        }
    }
}

// Leaves a result in EAX.
fn leave_result(unit: &ModuleUnit, regs: &mut Registers)
    ensures { regs.new ≡ registers_after unit.now regs.old }
{
    if let ModuleUnit::Answered(effect) = unit {
        regs.general[EAX] = effect.result.cast_unsigned();
    }
}

/// INT F8h of a real-time activity in tick `now`: performs the gate whose function is in EAX, with its arguments in EBX, ECX, EDX and
/// ESI, and leaves its result in EAX; EIP stays. The names are those of RTLinux 3 and POSIX, the numbers this project's own. `Outside`
/// where a byte of the range of functions 13, 14 or 24 is outside the side, and then nothing changes.
pub fn gate(
    now: u32,
    caller: Caller,
    regs: &mut Registers,
    all: &mut Executive,
    side: &mut Side<'_>,
    pair: &mut Pair,
) -> ModuleUnit
    requires tick { now < 2 ^ 31 }
    requires caller { IsLiveCaller caller all.old.threads }
    requires agrees { Agrees all.old }
    requires booted { IsBooted pair.old }
    requires side { (side_of side.old).first + length (side_of side.old).bytes < 2 ^ 32 }
    ensures outcome { gate_by_table now (who caller) (request_of regs.old) (gate_parts (latch_of pair.old) (side_of side.old) all.old) (gate_of (eax regs.old))
        ≡ answered (gate_of (eax regs.old)) result (gate_parts (latch_of pair.new) (side_of side.new) all.new) }
    ensures outside { WhenOutside result ((all.new ≡ all.old) × (side_of side.new ≡ side_of side.old) × (pair.new ≡ pair.old)) }
    ensures registers { regs.new ≡ registers_after result regs.old }
    ensures said { CountsPrinted (gate_of (eax regs.old)) result }
    ensures text { HasZerosBehind result }
    ensures acknowledged { acknowledged_by result ≡ taken_of (latch_of pair.old) (owner_changes all.old.irqs all.new.irqs) }
    ensures latches { latch_of pair.new ≡ without_taken (acknowledged_by result) (latch_of pair.old) }
    ensures asked { (pending : ℕ) → asked_lines (latch_of pair.new) all.new.irqs (union pending (marked_by result))
        ≡ asked_by (gate_of (eax regs.old)) (ebx regs.old) result (asked_lines (latch_of pair.old) all.old.irqs pending) }
    ensures booted { IsBooted pair.new }
    ensures kept { IsPair pair.new }
    ensures agrees { Agrees all.new }
    ensures guest { all.new.timeline.guest ≡ all.old.timeline.guest }
    ensures version { all.new.ready.version ≡ all.old.ready.version }
    ensures first { side.new.first ≡ side.old.first }
    ensures same_loan { side.new.bytes.ghost_name ≡ side.old.bytes.ghost_name }
{
    // Looked at so that the proof knows what is true of each pair.
    let _line = pair.request();
    let q = request(regs);
    let unit = unit_of(now, caller, gate_name(q.function), &q, all, side, pair);
    leave_result(&unit, regs);
    unit
}
