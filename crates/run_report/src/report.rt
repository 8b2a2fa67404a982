// What is written of a run.
ghost use Rattle.std.specs.Prelude.{◌≡◌, ◌≤◌, IfOk};
ghost use Rattle.outside_io.specs.Sink.{Puts};
ghost use Rattle.run_request.specs.Open.{IsReady};
ghost use Rattle.run_stream.specs.Lines.{run_shown, has_breach, has_fault};
ghost use Rattle.run_stream.specs.Ran.{StandsAfter};
ghost use Rattle.run_stream.specs.Writes.{Writes};
ghost use Rattle.run_report.specs.Report.{report_text, summary_text};

use crate::sum::sum_up;
use crate::summary::write_summary;
use outside_io::Sink;
use run_files::{AcceptedRun, Report};
use run_stream::{Finished, RunFault, run_streaming};
use std::alloc::Global;

// Runs the ticks of a run, and writes three lines that sum it up.
fn run_summed<K: Sink>(
    alloc: Global,
    run: AcceptedRun,
    number: u32,
    sink: &mut K,
) -> Result<Finished, RunFault>
    requires ready { IsReady run }
    requires limit { run.ticks ≤ 1000000000 }
    ensures written { Writes (K.written sink.old) (K.written sink.new) (K.faults sink.old) (K.faults sink.new)
        (summary_text number run.ticks (run_shown run)) result }
    ensures breach { IfOk result (λ finished. finished.breach ≡ has_breach (run_shown run)) }
    ensures fault { IfOk result (λ finished. finished.fault ≡ has_fault (run_shown run)) }
    ensures machine { IfOk result (λ finished. StandsAfter run finished.machine) }
{
    let ticks = run.ticks;
    let summed = match sum_up(alloc, run) {
        Ok(summed) => summed,
        Err(_) => return Err(RunFault::NoMemory),
    };
    match write_summary(
        sink,
        number,
        ticks,
        summed.real_time,
        summed.guest,
        &summed.digest,
    ) {
        Ok(()) => Ok(summed.finished),
        Err(_) => Err(RunFault::Sink),
    }
}

/// Runs the ticks of a run, and writes what its report asks for: each line that is shown as it comes, or behind the last tick the three
/// lines that sum them up. Each line is one put. A fault ends it.
pub fn run_reported<K: Sink>(
    alloc: Global,
    run: AcceptedRun,
    sink: &mut K,
) -> Result<Finished, RunFault>
    requires ready { IsReady run }
    requires limit { run.ticks ≤ 1000000000 }
    ensures written { Writes (K.written sink.old) (K.written sink.new) (K.faults sink.old) (K.faults sink.new)
        (report_text run) result }
    ensures breach { IfOk result (λ finished. finished.breach ≡ has_breach (run_shown run)) }
    ensures fault { IfOk result (λ finished. finished.fault ≡ has_fault (run_shown run)) }
    ensures machine { IfOk result (λ finished. StandsAfter run finished.machine) }
{
    match run.report {
        Report::Lines => run_streaming(alloc, run, sink),
        Report::Summary(number) => run_summed(alloc, run, number, sink),
    }
}
