// The unit of a real-time activity.
ghost use Rattle.std.specs.Prelude.{◌≡◌, ◌≤◌, ◌≢◌, ◌+◌, ℕ, length, Some};
ghost use Rattle.port_board.specs.Board.{rises_of};
ghost use Rattle.executive.specs.Agreement.{Agrees};
ghost use Rattle.hardware_steps.specs.HardwareOf.{IsBoard};
ghost use Rattle.port_map.specs.Serial.{Serial};
ghost use Rattle.rt_threads.specs.Threads.{NextFits, thread_at};
ghost use Rattle.breach_monitor.specs.RealTimeUnit.{Outcome};
ghost use Rattle.breach_monitor.specs.declared.real_time.RealTimeUnit.TheVariants as units;
ghost use Rattle.module_gates.specs.Callers.{who, IsLiveCaller};
ghost use Rattle.priority_schedule.specs.Unit.{unit_by_answer};
ghost use Rattle.machine_state.specs.States.{real_of};
ghost use Rattle.machine_state.specs.declared.processor.Processor.{Processor as HeldProcessor};
ghost use Rattle.activity_step.specs.Leaves.{Leaves, machine_with};
ghost use Rattle.machine_state.specs.Parts.{MachineParts};
ghost use Rattle.machine_state.specs.Running.{HasSizes, IsRunning, OnReady};
ghost use Rattle.activity_step.specs.Unit.{ActivityStep};

use crate::ended::{fault, give_back};
use crate::gates::answer_gate;
use crate::performed::perform;
use crate::stays::settle;
use activity_contexts::gates_keep_contexts;
use breach_monitor::RealTimeUnit;
use cpu_state::Registers;
use flat_memory::FlatMemory;
use hardware_steps::unit_edges;
use machine_state::{DueChange, Processor};
use module_gates::{Caller, Executive};
use pending_irqs::Pending;
use port_board::Board;
use trace_lines::Lines;

/// What isn't the next instruction: a gate, the return or a fault, with its lines. True where the activity ended.
fn act(
    unit: RealTimeUnit,
    now: u32,
    caller: Caller,
    memory: &mut FlatMemory,
    registers: &mut Registers,
    board: &mut Board,
    all: &mut Executive,
    pending: &mut Pending,
    lines: &mut Lines,
) -> bool
    requires other { unit ≢ units.Next }
    requires tick { now ≤ 1000000000 }
    requires caller { IsLiveCaller caller all.old.threads }
    requires sizes { HasSizes memory.old }
    requires board { IsBoard board.old }
    requires taken { rises_of board.old ≡ 0 }
    requires agrees { Agrees all.old }
    requires room { (length lines.old.r ≤ 120) × (length lines.old.h ≤ 64) }
    ensures leaves { (m : MachineParts) (p : HeldProcessor) (o : Outcome Serial) → p.on ≡ Some (who caller)
        → Leaves (unit_by_answer now (who caller) o
        (real_of (machine_with m memory.old (record p { registers = registers.old }) board.old all.old pending.old)) unit)
        (machine_with m memory.old (record p { registers = registers.old }) board.old all.old pending.old)
        (machine_with m memory.new (record p { registers = registers.new }) board.new all.new pending.new) lines.old lines.new result }
    ensures few { (length lines.new.r ≤ length lines.old.r + 2) × (length lines.new.h ≤ length lines.old.h + 17) }
{
    gates_keep_contexts();
    match unit {
        RealTimeUnit::Gate(next) => answer_gate(
            now,
            next,
            caller,
            memory,
            registers,
            all,
            &mut board.pair,
            pending,
            lines,
        ),
        RealTimeUnit::Return => {
            give_back(caller, all, &mut board.pair, lines);
            true
        }
        RealTimeUnit::Fault(kind) => {
            fault(caller, kind, all, &mut board.pair, lines);
            true
        }
        RealTimeUnit::Next => false,
    }
}

/// The unit of the init, handler or thread that is on in tick `now`, with its lines: one instruction on its own interrupt flag, a gate, its
/// return, or its fault, of which nothing is performed. Where it ended, or is a thread that isn't ready any more, nothing is on afterwards,
/// and the registers of a thread that is live are kept. Answers whether the dues may have changed.
pub fn activity_unit(
    now: u32,
    caller: Caller,
    memory: &mut FlatMemory,
    processor: &mut Processor,
    board: &mut Board,
    all: &mut Executive,
    pending: &mut Pending,
    lines: &mut Lines,
) -> DueChange
    requires tick { now ≤ 1000000000 }
    requires on { processor.old.on ≡ Some (who caller) }
    requires ready { OnReady processor.old.on all.old }
    requires sizes { HasSizes memory.old }
    requires board { IsBoard board.old }
    requires taken { rises_of board.old ≡ 0 }
    requires agrees { Agrees all.old }
    requires nexts { (i : ℕ) → NextFits (thread_at all.old.threads i) }
    requires room { (length lines.old.r ≤ 120) × (length lines.old.h ≤ 64) }
    ensures step { (m : MachineParts) → m.ticks ≡ now → IsRunning (machine_with m memory.old processor.old board.old all.old pending.old)
        → ActivityStep now (who caller) (machine_with m memory.old processor.old board.old all.old pending.old)
        (machine_with m memory.new processor.new board.new all.new pending.new) lines.old lines.new result }
    ensures few { (length lines.new.r ≤ length lines.old.r + 2) × (length lines.new.h ≤ length lines.old.h + 17) }
{
    let unit = perform(memory, &mut processor.registers, board);
    if let RealTimeUnit::Next = unit {
        unit_edges(board, lines);
        return DueChange::Same;
    }
    let before = all.timeline.nearest();
    let over = act(
        unit,
        now,
        caller,
        memory,
        &mut processor.registers,
        board,
        all,
        pending,
        lines,
    );
    settle(caller, over, processor, all);
    DueChange::Was(before)
}
