// The drain.
ghost use Rattle.std.specs.Prelude.{◌≡◌, ◌≤◌, ◌+◌, length, false};
ghost use Rattle.rt_constants.specs.declared.limits.TheConstants.{THREADS_LIMIT};
ghost use Rattle.line_sets.specs.LineSet.{has};
ghost use Rattle.pic_8259.specs.Boot.{IsBooted};
ghost use Rattle.pic_8259.specs.Controllers.{latch_of};
ghost use Rattle.executive.specs.Agreement.{Agrees};
ghost use Rattle.hardware_steps.specs.HardwareOf.{IsBoard};
ghost use Rattle.schedule_steps.specs.Rounds.{NoneCome};
ghost use Rattle.machine_state.specs.Parts.{MachineParts};
ghost use Rattle.machine_state.specs.Running.{IsRunning, IsTimer};
ghost use Rattle.drain_step.specs.Drained.{DrainStep};

use crate::timer::serve_timer;
use executive::Executive;
use hardware_steps::drain_board;
use machine_state::Guest;
use pic_8259::Pair;
use port_board::Board;
use trace_lines::Lines;

// Whether a line stands. In most ticks none does, and then there is nothing else to look at.
fn stands(pair: &Pair) -> bool
    requires booted { IsBooted pair.now }
    ensures empty { result ≡ false → latch_of pair.now ≡ 0 }
{
    pair.request().is_some()
}

// The drain of the lines that stand.
fn drain_standing(
    now: u32,
    board: &mut Board,
    all: &mut Executive,
    guest: &mut Guest,
    last: &mut u32,
    lines: &mut Lines,
)
    requires board { IsBoard board.old }
    requires agrees { Agrees all.old }
    requires timer { IsTimer now guest.old }
    requires tick { now ≤ 1000000000 }
    requires calm { has (latch_of board.old.pair) 0 ≡ false → NoneCome now all.old }
    requires room { (length lines.old.r ≤ 64) × (length lines.old.h ≤ 32) }
    ensures drained { (m : MachineParts) → m.ticks ≡ now
        → IsRunning (record m { board = board.old; all = all.old; guest = guest.old; last = last.old })
        → DrainStep now (record m { board = board.old; all = all.old; guest = guest.old; last = last.old })
        (record m { board = board.new; all = all.new; guest = guest.new; last = last.new }) lines.old lines.new }
    ensures few { (length lines.new.r ≤ length lines.old.r + THREADS_LIMIT) × (length lines.new.h ≤ length lines.old.h + 17) }
{
    let drained = drain_board(board, &mut all.irqs, lines);
    guest.pending.mark_all(u32::from(drained.guest));
    if drained.timer {
        serve_timer(now, board, all, guest, last, lines);
    }
}

/// The second step of tick `now`, where it drains: each standing line is acknowledged, with its line, and goes to its owner. Line 0 releases
/// the threads whose due has come, each with its line, marks line 0 for the guest where the due of its timer has come, moves that due on,
/// and sets the one-shot for the nearest due. `last` is the last tick in which line 0 was acknowledged.
pub fn drain(
    now: u32,
    board: &mut Board,
    all: &mut Executive,
    guest: &mut Guest,
    last: &mut u32,
    lines: &mut Lines,
)
    requires board { IsBoard board.old }
    requires agrees { Agrees all.old }
    requires timer { IsTimer now guest.old }
    requires tick { now ≤ 1000000000 }
    requires calm { has (latch_of board.old.pair) 0 ≡ false → NoneCome now all.old }
    requires room { (length lines.old.r ≤ 64) × (length lines.old.h ≤ 32) }
    ensures drained { (m : MachineParts) → m.ticks ≡ now
        → IsRunning (record m { board = board.old; all = all.old; guest = guest.old; last = last.old })
        → DrainStep now (record m { board = board.old; all = all.old; guest = guest.old; last = last.old })
        (record m { board = board.new; all = all.new; guest = guest.new; last = last.new }) lines.old lines.new }
    ensures few { (length lines.new.r ≤ length lines.old.r + THREADS_LIMIT) × (length lines.new.h ≤ length lines.old.h + 17) }
{
    if stands(&board.pair) {
        drain_standing(now, board, all, guest, last, lines);
    }
}
