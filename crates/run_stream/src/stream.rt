// A run whose lines are written as they come.
ghost use Rattle.std.specs.Prelude.{◌≡◌, ◌≤◌, ◌||◌, IfOk};
ghost use Rattle.std.specs.List.{list_any};
ghost use Rattle.run_request.specs.Open.{IsReady};
ghost use Rattle.outside_io.specs.Sink.{Puts};
ghost use Rattle.run_stream.specs.Lines.{run_shown, text_of, tick_shown, tick_text, has_breach, has_fault, is_breach as breach_of, fault_shown, is_fault as fault_of};
ghost use Rattle.run_stream.specs.Ran.{HasRunTo, StandsAfter};
ghost use Rattle.run_stream.specs.Writes.{Writes};

use crate::write::{has_none, write_ends, write_tick};
use outside_io::{NoMemory, Sink, SinkFault};
use rt_core::{Machine, Parts};
use run_files::{AcceptedRun, Shown, Sides};
use std::alloc::Global;
use trace_lines::{GLine, Lines, RLine};

/// Why a run ends early.
pub enum RunFault {
    /// memory was refused, before anything was written
    NoMemory,
    /// a line couldn't be written
    Sink,
}

/// A run that is over: its machine, and whether a line that was shown was a breach of the guest, or a fault of a real-time activity.
#[derive(Drop)]
pub struct Finished {
    pub machine: Machine,
    pub breach: bool,
    pub fault: bool,
}

fn is_breach(line: &GLine) -> bool
    ensures { result ≡ breach_of line.now }
{
    matches!(line, GLine::Breach(_))
}

fn any_breach(lines: &[GLine]) -> bool
    ensures { result ≡ list_any breach_of lines.now }
{
    lines.iter().any(is_breach)
}

/// Whether there was a breach before these lines or among them.
pub fn has_breach_by(before: bool, lines: &[GLine]) -> bool
    ensures { result ≡ (before || list_any breach_of lines.now) }
{
    before || any_breach(lines)
}

fn is_fault(line: &RLine) -> bool
    ensures { result ≡ fault_of line.now }
{
    matches!(line, RLine::Fault(_, _))
}

fn any_fault(lines: &[RLine]) -> bool
    ensures { result ≡ list_any fault_of lines.now }
{
    lines.iter().any(is_fault)
}

/// Whether there was a fault before these lines or among them, where they are shown.
pub fn has_fault_by(before: bool, shown: Shown, lines: &[RLine]) -> bool
    ensures { result ≡ (before || fault_shown shown lines.now) }
{
    match shown {
        Shown::Guest => before,
        Shown::Both => before || any_fault(lines),
        Shown::WithHardware => before || any_fault(lines),
    }
}

// Writes the lines of a tick that are shown, and notes a breach and a fault among them. Most ticks have no line, and then nothing is looked
// at.
fn tell<K: Sink>(
    sink: &mut K,
    tick: u32,
    shown: Shown,
    lines: &Lines,
    breach: &mut bool,
    fault: &mut bool,
) -> Result<(), SinkFault>
    ensures written { Puts (K.written sink.old) (K.written sink.new) (K.faults sink.old) (K.faults sink.new)
        (tick_text tick (tick_shown shown lines.now.r lines.now.h lines.now.g)) result }
    ensures breach { breach.new ≡ (breach.old || list_any breach_of lines.now.g) }
    ensures fault { fault.new ≡ (fault.old || fault_shown shown lines.now.r) }
{
    if has_none(lines) {
        return Ok(());
    }
    *breach = has_breach_by(*breach, lines.g());
    *fault = has_fault_by(*fault, shown, lines.r());
    write_tick(sink, tick, shown, lines)
}

/// The machine of a run before its first tick.
pub fn boot(alloc: Global, run: AcceptedRun) -> Result<Machine, NoMemory>
    requires { IsReady run }
    ensures { IfOk result (λ machine. HasRunTo run 0 machine) }
{
    let AcceptedRun {
        sides,
        inits,
        version,
        script,
        ..
    } = run;
    let Sides { memory, entry } = sides;
    Machine::boot(
        alloc,
        Parts {
            memory,
            entry,
            inits: inits.into_vec(),
            version,
            script,
        },
    )
}

/// Runs the ticks of a run, and writes each line with one put: those that are shown. A fault ends it, and then no
/// further tick is run.
pub fn run_streaming<K: Sink>(
    alloc: Global,
    run: AcceptedRun,
    sink: &mut K,
) -> Result<Finished, RunFault>
    requires ready { IsReady run }
    requires limit { run.ticks ≤ 1000000000 }
    ensures written { Writes (K.written sink.old) (K.written sink.new) (K.faults sink.old) (K.faults sink.new)
        (text_of (run_shown run)) result }
    ensures breach { IfOk result (λ finished. finished.breach ≡ has_breach (run_shown run)) }
    ensures fault { IfOk result (λ finished. finished.fault ≡ has_fault (run_shown run)) }
    ensures machine { IfOk result (λ finished. StandsAfter run finished.machine) }
{
    let ticks = run.ticks;
    let shown = run.shown;
    let mut lines = match Lines::new(alloc) {
        Ok(lines) => lines,
        Err(_) => return Err(RunFault::NoMemory),
    };
    let mut machine = match boot(alloc, run) {
        Ok(machine) => machine,
        Err(_) => return Err(RunFault::NoMemory),
    };
    let mut breach = false;
    let mut fault = false;
    for t in 0..ticks {
        machine.tick(&mut lines);
        match tell(sink, t + 1, shown, &lines, &mut breach, &mut fault) {
            Ok(()) => {}
            Err(_) => return Err(RunFault::Sink),
        }
    }
    match write_ends(sink, ticks, shown, &machine.end()) {
        Ok(()) => Ok(Finished {
            machine,
            breach,
            fault,
        }),
        Err(_) => Err(RunFault::Sink),
    }
}
