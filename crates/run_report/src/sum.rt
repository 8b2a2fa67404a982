// The lines of a run, counted and digested as they come.
ghost use Rattle.std.specs.Prelude.{◌≡◌, ◌≤◌, ◌+◌, ◌^◌, ◌||◌, length, flat_map, IfOk};
ghost use Rattle.std.specs.List.{list_any};
ghost use Rattle.run_output.specs.Halves.{real_time_in, guest_in};
ghost use Rattle.run_request.specs.Open.{IsReady};
ghost use Rattle.run_stream.specs.Lines.{run_shown, has_breach, has_fault, is_breach, fault_shown, piece_of, tick_shown, ends_among, tick_text};
ghost use Rattle.run_stream.specs.Ran.{StandsAfter};
ghost use Rattle.run_report.specs.Report.{count, digest_of};
ghost use Rattle.run_report.specs.Sums.{Absorbs, Adds, real_time_shown as real_time_of, guest_ends as guest_of};

use outside_io::NoMemory;
use rt_core::EndLines;
use run_files::{AcceptedRun, Shown};
use run_stream::{Finished, Printed, boot, has_breach_by, has_fault_by, has_none};
use sha2::{Digest, Sha256};
use std::alloc::Global;
use trace_lines::{GLine, Lines, RLine};

/// What the lines of a run come to.
#[derive(Drop)]
pub struct Summed {
    /// The machine, and whether there was a breach or a fault.
    pub finished: Finished,
    /// How many real-time lines there are.
    pub real_time: u128,
    /// How many guest's lines there are.
    pub guest: u128,
    /// The SHA-256 digest of the texts of all lines, each with its end.
    pub digest: [u8; 32],
}

/// What the lines so far come to.
#[derive(Drop)]
pub struct Sum {
    pub real_time: u128,
    pub guest: u128,
    pub digest: Sha256,
}

// Adds the texts of lines of one letter to a digest.
fn absorb_half<L: Printed>(digest: &mut Sha256, tick: u32, lines: &[L])
    ensures { Absorbs digest.old digest.new (flat_map (λ l. piece_of (tick, L.line l)) lines.now) }
{
    for line in lines {
        digest.update(line.piece(tick).as_bytes());
    }
}

// Adds the texts of the lines of a tick that are shown.
fn absorb_tick(digest: &mut Sha256, tick: u32, shown: Shown, lines: &Lines)
    ensures { Absorbs digest.old digest.new (tick_text tick (tick_shown shown lines.now.r lines.now.h lines.now.g)) }
{
    match shown {
        Shown::Guest => absorb_half(digest, tick, lines.g()),
        Shown::Both => {
            absorb_half(digest, tick, lines.r());
            absorb_half(digest, tick, lines.g());
        }
        Shown::WithHardware => {
            absorb_half(digest, tick, lines.r());
            absorb_half(digest, tick, lines.h());
            absorb_half(digest, tick, lines.g());
        }
    }
}

// Adds the texts of the end lines that are shown.
fn absorb_ends(digest: &mut Sha256, tick: u32, shown: Shown, ends: &EndLines)
    ensures { Absorbs digest.old digest.new (tick_text tick (ends_among shown ends.now.r ends.now.g)) }
{
    match shown {
        Shown::Guest => absorb_half(digest, tick, &ends.g[..1]),
        Shown::Both => {
            absorb_half(digest, tick, &ends.r);
            absorb_half(digest, tick, &ends.g);
        }
        Shown::WithHardware => {
            absorb_half(digest, tick, &ends.r);
            absorb_half(digest, tick, &ends.g);
        }
    }
}

// How many of these real-time lines are shown.
fn real_time_shown(shown: Shown, lines: &[RLine]) -> usize
    ensures { result ≡ real_time_of shown lines.now }
{
    match shown {
        Shown::Guest => 0,
        Shown::Both => lines.len(),
        Shown::WithHardware => lines.len(),
    }
}

// How many of the guest's end lines are shown.
fn guest_ends(shown: Shown, lines: &[GLine]) -> usize
    ensures { result ≡ guest_of shown lines.now }
{
    match shown {
        Shown::Guest => lines.len().min(1),
        Shown::Both => lines.len(),
        Shown::WithHardware => lines.len(),
    }
}

// Adds the lines of a tick that are shown. Most ticks have no line, and then nothing is looked at.
fn add_tick(
    sum: &mut Sum,
    tick: u32,
    shown: Shown,
    lines: &Lines,
    breach: &mut bool,
    fault: &mut bool,
)
    requires real_time { sum.old.real_time ≤ 2 ^ 96 }
    requires guest { sum.old.guest ≤ 2 ^ 96 }
    ensures added { Adds sum.old sum.new tick (tick_shown shown lines.now.r lines.now.h lines.now.g) }
    ensures real_time { sum.new.real_time ≤ sum.old.real_time + 2 ^ 64 }
    ensures guest { sum.new.guest ≤ sum.old.guest + 2 ^ 64 }
    ensures breach { breach.new ≡ (breach.old || list_any is_breach lines.now.g) }
    ensures fault { fault.new ≡ (fault.old || fault_shown shown lines.now.r) }
{
    if has_none(lines) {
        return;
    }
    *breach = has_breach_by(*breach, lines.g());
    *fault = has_fault_by(*fault, shown, lines.r());
    sum.real_time += real_time_shown(shown, lines.r()) as u128;
    sum.guest += lines.g().len() as u128;
    absorb_tick(&mut sum.digest, tick, shown, lines);
}

// Adds the end lines that are shown.
fn add_ends(sum: &mut Sum, tick: u32, shown: Shown, ends: &EndLines)
    requires real_time { sum.old.real_time ≤ 2 ^ 96 }
    requires guest { sum.old.guest ≤ 2 ^ 96 }
    ensures { Adds sum.old sum.new tick (ends_among shown ends.now.r ends.now.g) }
{
    sum.real_time += real_time_shown(shown, &ends.r) as u128;
    sum.guest += guest_ends(shown, &ends.g) as u128;
    absorb_ends(&mut sum.digest, tick, shown, ends);
}

/// Runs the ticks of a run, and counts and digests the lines that are shown, each as it comes: no line is kept.
pub fn sum_up(alloc: Global, run: AcceptedRun) -> Result<Summed, NoMemory>
    requires ready { IsReady run }
    requires limit { run.ticks ≤ 1000000000 }
    ensures real_time { IfOk result (λ summed. summed.real_time ≡ count real_time_in (run_shown run)) }
    ensures guest { IfOk result (λ summed. summed.guest ≡ count guest_in (run_shown run)) }
    ensures digest { IfOk result (λ summed. summed.digest ≡ digest_of (run_shown run)) }
    ensures breach { IfOk result (λ summed. summed.finished.breach ≡ has_breach (run_shown run)) }
    ensures fault { IfOk result (λ summed. summed.finished.fault ≡ has_fault (run_shown run)) }
    ensures machine { IfOk result (λ summed. StandsAfter run summed.finished.machine) }
{
    let ticks = run.ticks;
    let shown = run.shown;
    let mut lines = Lines::new(alloc)?;
    let mut machine = boot(alloc, run)?;
    let mut sum = Sum {
        real_time: 0,
        guest: 0,
        digest: Sha256::new(),
    };
    let mut breach = false;
    let mut fault = false;
    for t in 0..ticks {
        machine.tick(&mut lines);
        add_tick(&mut sum, t + 1, shown, &lines, &mut breach, &mut fault);
    }
    add_ends(&mut sum, ticks, shown, &machine.end());
    Ok(Summed {
        finished: Finished {
            machine,
            breach,
            fault,
        },
        real_time: sum.real_time,
        guest: sum.guest,
        digest: sum.digest.finalize(),
    })
}
