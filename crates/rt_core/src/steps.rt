// The steps of a tick that depend on what is on: the drain, which only some ticks make, the unit, which is the guest's or an activity's,
// and the timer, which is set where the unit changed the nearest due.
ghost use Rattle.std.specs.Prelude.{ℕ, ◌≡◌, ◌≤◌, ◌<◌, ◌+◌, length, true, false, Some};
ghost use Rattle.line_kinds.specs.declared.kinds.Who.TheVariants as whos;
ghost use Rattle.line_sets.specs.LineSet.{has};
ghost use Rattle.pic_8259.specs.Controllers.{latch_of};
ghost use Rattle.port_board.specs.Board.{rises_of};
ghost use Rattle.soft_flags.specs.SoftFlags.{HasTableIn};
ghost use Rattle.rt_constants.specs.declared.limits.TheConstants.{THREADS_LIMIT};
ghost use Rattle.executive.specs.Agreement.{Agrees};
ghost use Rattle.activity_contexts.specs.Contexts.{live_threads};
ghost use Rattle.priority_schedule.specs.Release.{drains_at};
ghost use Rattle.hardware_lines.specs.Hardware.{timer_step};
ghost use Rattle.hardware_steps.specs.HardwareOf.{IsBoard, marking_of};
ghost use Rattle.schedule_steps.specs.Dues.{has_come};
ghost use Rattle.schedule_steps.specs.Rounds.{NoneCome};
ghost use Rattle.machine_state.specs.Changed.{TellsDues};
ghost use Rattle.machine_state.specs.Parts.{MachineParts};
ghost use Rattle.machine_state.specs.Running.{HasSizes, IsRunning, IsTimer, OnReady};
ghost use Rattle.machine_state.specs.States.{machines_of};
ghost use Rattle.rt_core.specs.Drained.{DrainedWhere};
ghost use Rattle.rt_threads.specs.Threads.{NextFits, thread_at};
ghost use Rattle.rt_core.specs.Unit.{IsCaller, UnitStep};

use activity_step::activity_unit;
use drain_step::drain;
use executive::Executive;
use flat_memory::FlatMemory;
use guest_step::guest_unit;
use hardware_steps::timer;
use line_kinds::Who;
use machine_state::{DueChange, Guest, Processor};
use module_gates::Caller;
use port_board::Board;
use trace_lines::Lines;

/// Whether the tick drains: nothing was on, the guest was, or a thread whose interrupt flag is set.
pub fn drains(processor: &Processor) -> bool
    ensures { (m : MachineParts) → OnReady processor.now.on m.all → result ≡ drains_at (live_threads processor.now.on processor.now.registers m.all.threads) processor.now.on }
{
    match processor.on {
        None | Some(Who::Guest) => true,
        Some(who) => processor.registers.eflags.interrupt && matches!(who, Who::Thread(_)),
    }
}

/// The second step of tick `now`, where it drains.
pub fn drain_where(
    draining: bool,
    now: u32,
    board: &mut Board,
    all: &mut Executive,
    guest: &mut Guest,
    last: &mut u32,
    lines: &mut Lines,
)
    requires board { IsBoard board.old }
    requires agrees { Agrees all.old }
    requires timer { IsTimer now guest.old }
    requires tick { now ≤ 1000000000 }
    requires calm { has (latch_of board.old.pair) 0 ≡ false → NoneCome now all.old }
    requires room { (length lines.old.r ≤ 64) × (length lines.old.h ≤ 32) }
    ensures steps { (m : MachineParts) → m.ticks ≡ now → IsRunning (record m { board = board.old; all = all.old; guest = guest.old; last = last.old })
        → DrainedWhere draining now (record m { board = board.old; all = all.old; guest = guest.old; last = last.old })
        (record m { board = board.new; all = all.new; guest = guest.new; last = last.new }) lines.old lines.new }
    ensures few { (length lines.new.r ≤ length lines.old.r + THREADS_LIMIT) × (length lines.new.h ≤ length lines.old.h + 17) }
{
    if draining {
        drain(now, board, all, guest, last, lines);
    }
}

// The activity, where it isn't the guest.
fn caller_of(who: Who) -> Option<Caller>
    ensures { IsCaller who result }
{
    match who {
        Who::Guest => None,
        Who::Thread(id) => Some(Caller::Thread(id)),
        Who::Init(module) => Some(Caller::Init(module)),
        Who::Irq(line) => Some(Caller::Irq(line)),
        Who::Fifo(fifo) => Some(Caller::Fifo(fifo)),
    }
}

/// The fourth step of tick `now`: the unit of what was picked.
pub fn unit(
    now: u32,
    who: Who,
    memory: &mut FlatMemory,
    processor: &mut Processor,
    board: &mut Board,
    all: &mut Executive,
    guest: &mut Guest,
    lines: &mut Lines,
) -> DueChange
    requires tick { now ≤ 1000000000 }
    requires on { processor.old.on ≡ Some who }
    requires ready { OnReady processor.old.on all.old }
    requires sizes { HasSizes memory.old }
    requires table { HasTableIn guest.old.soft (length memory.old.guest) }
    requires board { IsBoard board.old }
    requires taken { rises_of board.old ≡ 0 }
    requires agrees { Agrees all.old }
    requires nexts { (i : ℕ) → NextFits (thread_at all.old.threads i) }
    requires emptied { who ≡ whos.Guest → latch_of board.old.pair ≡ 0 }
    requires calm { who ≡ whos.Guest → has_come now all.old.timeline.guest ≡ false }
    requires room { (length lines.old.r ≤ 120) × ((length lines.old.g ≤ 7) × (length lines.old.h ≤ 64)) }
    ensures steps { (m : MachineParts) → m.ticks ≡ now
        → IsRunning (record m { memory = memory.old; processor = processor.old; board = board.old; all = all.old; guest = guest.old })
        → UnitStep now who (record m { memory = memory.old; processor = processor.old; board = board.old; all = all.old; guest = guest.old })
        (record m { memory = memory.new; processor = processor.new; board = board.new; all = all.new; guest = guest.new }) lines.old lines.new result }
    ensures few { length lines.new.h ≤ length lines.old.h + 17 }
{
    match caller_of(who) {
        None => guest_unit(
            now,
            memory,
            &mut processor.registers,
            board,
            guest,
            &mut all.timeline,
            &mut all.fifos,
            lines,
        ),
        Some(caller) => activity_unit(
            now,
            caller,
            memory,
            processor,
            board,
            all,
            &mut guest.pending,
            lines,
        ),
    }
}

/// The last step of tick `now`: the one-shot is set where the unit changed the nearest due and there is one. Where the dues stayed, none is
/// looked for.
pub fn set_timer(now: u32, change: DueChange, board: &mut Board, all: &Executive, lines: &mut Lines)
    requires board { IsBoard board.old }
    requires room { length lines.old.h < 128 }
    ensures rest { board.new ≡ record board.old { pit = board.new.pit } }
    ensures board { IsBoard board.new }
    ensures hardware { (m n : MachineParts) → m.last ≡ n.last → IsRunning m → IsRunning n → TellsDues change m.all.timeline n.all.timeline → n.all.timeline ≡ all.now.timeline
        → marking_of now n.last board.new lines.new.h ≡ timer_step now (machines_of m) (machines_of n) (marking_of now n.last board.old lines.old.h) }
    ensures lines { lines.new ≡ record lines.old { h = lines.new.h } }
{
    match change {
        DueChange::Same => {}
        DueChange::Was(before) => timer(board, before, all.timeline.nearest(), now, lines),
    }
}
