// A gate of a real-time activity, with its lines.
ghost use Rattle.std.specs.Prelude.{◌≡◌, ◌<◌, ◌≤◌, ◌+◌, ◌++◌, ◌^◌, ◌∷◌, length};
ghost use Rattle.flat_memory.specs.Side.{side_at};
ghost use Rattle.pic_8259.specs.Boot.{IsBooted};
ghost use Rattle.gate_table.specs.Gates.{request_of};
ghost use Rattle.gate_table.specs.Names.{gate_of};
ghost use Rattle.executive.specs.Agreement.{Agrees};
ghost use Rattle.priority_schedule.specs.Unit.{gate_line, gate_unit, printed_lines};
ghost use Rattle.module_gates.specs.Callers.{who, IsLiveCaller};
ghost use Rattle.module_gates.specs.Effects.{count_printed, printed_by};
ghost use Rattle.port_board.specs.Board.{rises_of};
ghost use Rattle.port_board.specs.declared.board.Board.{Board as HeldBoard};
ghost use Rattle.activity_contexts.specs.Contexts.{OnLive};
ghost use Rattle.activity_contexts.specs.Laws.{LiveGates};
ghost use Rattle.hardware_steps.specs.HardwareOf.{IsBoard};
ghost use Rattle.machine_state.specs.declared.processor.Processor.{Processor as HeldProcessor};
ghost use Rattle.machine_state.specs.Parts.{MachineParts};
ghost use Rattle.machine_state.specs.Running.{HasSizes};
ghost use Rattle.machine_state.specs.States.{real_of};
ghost use Rattle.activity_step.specs.GateUnit.{Gated};
ghost use Rattle.activity_step.specs.Leaves.{Leaves, machine_with};

use crate::ended::{fault, look};
use crate::performed::first_address;
use cpu_state::{EAX, EBX, ECX, EDX, ESI, Registers};
use flat_memory::{FlatMemory, Side};
use gate_table::{GateName, Request, gate_name};
use hardware_steps::unit_ack;
use module_gates::{Caller, Effect, Executive, ModuleUnit, gate};
use pending_irqs::Pending;
use pic_8259::Pair;
use trace_lines::{FaultKind, Lines, RLine, Said};

/// What the registers ask for.
pub fn request(registers: &Registers) -> Request
    ensures { result ≡ request_of registers.now }
{
    Request {
        function: registers.general[EAX],
        ebx: registers.general[EBX],
        ecx: registers.general[ECX],
        edx: registers.general[EDX],
        esi: registers.general[ESI],
    }
}

/// A gate over the bytes of the real-time side, of which the first stands at the address `first`.
pub fn gate_on(
    now: u32,
    caller: Caller,
    first: u32,
    registers: &mut Registers,
    bytes: &mut [u8],
    all: &mut Executive,
    pair: &mut Pair,
) -> ModuleUnit
    requires tick { now < 2 ^ 31 }
    requires caller { IsLiveCaller caller all.old.threads }
    requires agrees { Agrees all.old }
    requires booted { IsBooted pair.old }
    requires size { first + length bytes.old < 2 ^ 32 }
    ensures gated { Gated now (who caller) result registers.old registers.new (side_at first bytes.old) (side_at first bytes.new)
        all.old all.new pair.old pair.new }
    ensures size { length bytes.new ≡ length bytes.old }
{
    let mut side = Side::new(first, bytes);
    let unit = gate(now, caller, registers, all, &mut side, pair);
    look(&all.irqs);
    unit
}

// What a gate prints, if it is a print that succeeds.
fn show_text(name: GateName, effect: &Effect, lines: &mut Lines)
    requires said { effect.now.said ≡ count_printed (printed_by name effect.now) }
    requires room { length lines.old.r < 128 }
    ensures lines { lines.new ≡ record lines.old { r = lines.old.r ++ printed_lines (printed_by name effect.now) } }
    ensures few { length lines.new.r ≤ length lines.old.r + 1 }
{
    if let GateName::Print = name {
        if effect.result == 0 {
            lines.push_r(RLine::Say(Said::new(&effect.text[..effect.said as usize])));
        }
    }
}

/// The line of a gate that was answered, and what it prints.
pub fn show_gate(q: &Request, effect: &Effect, lines: &mut Lines)
    requires said { effect.now.said ≡ count_printed (printed_by (gate_of q.now.function) effect.now) }
    requires room { length lines.old.r ≤ 120 }
    ensures lines { lines.new ≡ record lines.old {
      r = lines.old.r
          ++ gate_line q.now effect.now.result ∷ printed_lines (printed_by (gate_of q.now.function) effect.now);
    } }
    ensures few { length lines.new.r ≤ length lines.old.r + 2 }
{
    lines.push_r(RLine::Gate(q.function, [q.ebx, q.ecx, q.edx, q.esi], effect.result));
    show_text(gate_name(q.function), effect, lines);
}

/// INT F8h of an activity that goes on at `next`, with its lines: where a byte of its range is outside the side, it faults. True where the
/// activity ended.
pub fn answer_gate(
    now: u32,
    next: u32,
    caller: Caller,
    memory: &mut FlatMemory,
    registers: &mut Registers,
    all: &mut Executive,
    pair: &mut Pair,
    pending: &mut Pending,
    lines: &mut Lines,
) -> bool
    requires tick { now ≤ 1000000000 }
    requires caller { IsLiveCaller caller all.old.threads }
    requires sizes { HasSizes memory.old }
    requires agrees { Agrees all.old }
    requires booted { IsBooted pair.old }
    requires room { (length lines.old.r ≤ 120) × (length lines.old.h ≤ 64) }
    ensures leaves { (m : MachineParts) (p : HeldProcessor) (board : HeldBoard) → LiveGates → p.on ≡ Some (who caller)
        → OnLive p.on all.old.threads → IsBoard board → rises_of board ≡ 0 → pair.old ≡ board.pair
        → Leaves (gate_unit now (who caller) next
        (real_of (machine_with m memory.old (record p { registers = registers.old }) board all.old pending.old)))
        (machine_with m memory.old (record p { registers = registers.old }) board all.old pending.old)
        (machine_with m memory.new (record p { registers = registers.new }) (record board { pair = pair.new }) all.new pending.new)
        lines.old lines.new result }
    ensures few { (length lines.new.r ≤ length lines.old.r + 2) × (length lines.new.h ≤ length lines.old.h + 1) }
{
    let q = request(registers);
    let first = first_address(memory);
    match gate_on(now, caller, first, registers, memory.real_time(), all, pair) {
        ModuleUnit::Answered(effect) => {
            registers.eip = next;
            pending.mark_all(effect.guest);
            show_gate(&q, &effect, lines);
            unit_ack(effect.acknowledged, lines);
            false
        }
        ModuleUnit::Outside => {
            fault(caller, FaultKind::Memory, all, pair, lines);
            true
        }
    }
}
