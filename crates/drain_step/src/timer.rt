// Line 0 in a drain: the releases, the guest's timer and the one-shot.
ghost use Rattle.std.specs.Prelude.{◌≡◌, ◌<◌, ◌≤◌, ◌+◌, ℕ, length};
ghost use Rattle.rt_constants.specs.declared.limits.TheConstants.{THREADS_LIMIT};
ghost use Rattle.executive.specs.Agreement.{Agrees};
ghost use Rattle.priority_schedule.specs.State.{RealTime};
ghost use Rattle.priority_schedule.specs.Release.{released};
ghost use Rattle.rt_timeline.specs.Dues.{nearest_due};
ghost use Rattle.hardware_lines.specs.Hardware.{timer_due, with_set};
ghost use Rattle.hardware_steps.specs.HardwareOf.{IsBoard, marking_of};
ghost use Rattle.schedule_steps.specs.Dues.{has_come};
ghost use Rattle.schedule_steps.specs.States.{ticking};
ghost use Rattle.machine_state.specs.Running.{IsTimer};
ghost use Rattle.drain_step.specs.TimerMark.{timer_marked};

use executive::Executive;
use hardware_steps::set_shot;
use machine_state::Guest;
use port_board::Board;
use rt_constants::lines::TIMER_LINE;
use rt_timeline::{Due, Timeline};
use schedule_steps::release_dues;
use trace_lines::Lines;

// Marks line 0 for the guest where the due of its timer had come.
fn mark_timer(come: bool, guest: &mut Guest)
    ensures { guest.new ≡ record guest.old { pending = timer_marked come guest.old.pending } }
{
    if come {
        guest.pending.mark(TIMER_LINE);
    }
}

// The first due above tick `now` of a timer that was set in tick `start`, with a period in ticks; `None` where it is off.
fn first_above(now: u32, start: u32, period: u32) -> Option<u64>
    requires started { start ≤ now }
    requires tick { now ≤ 1000000000 }
    requires period { period ≤ 1000000000 }
    ensures { result ≡ timer_due now start period }
{
    if period == 0 {
        return None;
    }
    let passed = u64::from((now - start) / period);
    Some(u64::from(start) + (passed + 1) * u64::from(period))
}

// Sets the guest's due, or takes it away.
fn set_due(due: Option<u64>, timeline: &mut Timeline)
    ensures { timeline.new ≡ record timeline.old { guest = due } }
{
    match due {
        Some(at) => timeline.set(Due::Guest, at),
        None => timeline.clear(Due::Guest),
    }
}

// What line 0 does in tick `now`: it releases the threads whose due has come, marks line 0 for the guest where its timer's has, moves
// that due on, and sets the one-shot for the nearest one.
pub fn serve_timer(
    now: u32,
    board: &mut Board,
    all: &mut Executive,
    guest: &mut Guest,
    last: &mut u32,
    lines: &mut Lines,
)
    requires board { IsBoard board.old }
    requires agrees { Agrees all.old }
    requires timer { IsTimer now guest.old }
    requires tick { now ≤ 1000000000 }
    requires room { (length lines.old.r ≤ 64) × (length lines.old.h < 128) }
    ensures released { (latch : ℕ) (m : RealTime)
        → released THREADS_LIMIT now (ticking latch all.old m lines.old.r) ≡ ticking latch all.new m lines.new.r }
    ensures agrees { Agrees all.new }
    ensures due { all.new.timeline.guest ≡ timer_due now guest.old.timer_start guest.old.timer_period }
    ensures version { all.new.ready.version ≡ all.old.ready.version }
    ensures irqs { all.new.irqs ≡ all.old.irqs }
    ensures guest { guest.new ≡ record guest.old { pending = timer_marked (has_come now all.old.timeline.guest) guest.old.pending } }
    ensures last { last.new ≡ now }
    ensures rest { board.new ≡ record board.old { pit = board.new.pit } }
    ensures board { IsBoard board.new }
    ensures hardware { (last : ℕ)
        → marking_of now last board.new lines.new.h ≡ with_set now (nearest_due all.new.timeline) (marking_of now last board.old lines.old.h) }
    ensures guest_lines { lines.new.g ≡ lines.old.g }
    ensures few { (length lines.new.r ≤ length lines.old.r + THREADS_LIMIT) × (length lines.new.h ≤ length lines.old.h + 1) }
{
    *last = now;
    let come = release_dues(now, all, lines);
    mark_timer(come, guest);
    set_due(
        first_above(now, guest.timer_start, guest.timer_period),
        &mut all.timeline,
    );
    set_shot(board, all.timeline.nearest(), now, lines);
}
