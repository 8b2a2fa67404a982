// The second step of a tick: releases.
ghost use Rattle.std.specs.Prelude.{◌≡◌, ◌+◌, ◌≤◌, ℕ, length};
ghost use Rattle.rt_constants.specs.declared.limits.TheConstants.{THREADS_LIMIT};
ghost use Rattle.executive.specs.Agreement.{Agrees};
ghost use Rattle.priority_schedule.specs.State.{RealTime};
ghost use Rattle.priority_schedule.specs.Release.{released};
ghost use Rattle.schedule_steps.specs.Dues.{has_come, still_due, threads_come};
ghost use Rattle.schedule_steps.specs.Rounds.{IsRound};
ghost use Rattle.schedule_steps.specs.States.{ticking};

use executive::Executive;
use rt_timeline::Due;
use thread_gates::release;
use trace_lines::{Lines, RLine};

// Takes the first due that has come by tick `now`, and releases its thread, with a line; `None` where none has come.
fn release_next(now: u32, all: &mut Executive, lines: &mut Lines) -> Option<Due>
    requires agrees { Agrees all.old }
    requires room { length lines.old.r + threads_come now all.old.timeline.threads ≤ 128 }
    ensures { IsRound now all.old all.new lines.old lines.new result }
{
    match all.timeline.take_due(u64::from(now)) {
        Some((Due::Thread(id), due)) => {
            release(id, due, all);
            lines.push_r(RLine::Release(u32::from(id)));
            Some(Due::Thread(id))
        }
        Some((Due::Guest, _)) => Some(Due::Guest),
        None => None,
    }
}

/// Releases each waiting thread whose due has come by tick `now`, by due and then by number, each with its line; true where the due of
/// the guest's timer had come, which is taken then. Where no due has come, that costs one look at the nearest one.
pub fn release_dues(now: u32, all: &mut Executive, lines: &mut Lines) -> bool
    requires agrees { Agrees all.old }
    requires room { length lines.old.r + THREADS_LIMIT ≤ 128 }
    ensures released { (latch : ℕ) (m : RealTime) → released THREADS_LIMIT now (ticking latch all.old m lines.old.r) ≡ ticking latch all.new m lines.new.r }
    ensures agrees { Agrees all.new }
    ensures come { result ≡ has_come now all.old.timeline.guest }
    ensures guest { all.new.timeline.guest ≡ still_due now all.old.timeline.guest }
    ensures version { all.new.ready.version ≡ all.old.ready.version }
    ensures others { (all.new.fifos ≡ all.old.fifos) × (all.new.irqs ≡ all.old.irqs) }
    ensures lines { (lines.new.g ≡ lines.old.g) × (lines.new.h ≡ lines.old.h) }
{
    let mut guest = false;
    while let Some(owner) = release_next(now, all, lines) {
        guest = guest || matches!(owner, Due::Guest);
    }
    guest
}
