// The run that is accepted.
ghost use Rattle.std.specs.Prelude.{◌≡◌, ◌≢◌, ◌≤◌, ◌<◌, Ok};
ghost use Rattle.outside_io.specs.Causes.{Rose};
ghost use Rattle.run_request.specs.Open.{IsReady};
ghost use Rattle.rtlinux_top.specs.Answers.{AnswersBy};
ghost use Rattle.rtlinux_top.specs.Status.{IsDetermined, HasRun};
ghost use Rattle.rtlinux_top.specs.Verdict.{verdict_output, refused_by as refused_of, status_after as status_after_of};
ghost use Rattle.run_stream.specs.Writes.{AppendsPart};
ghost use Rattle.rtlinux_top.specs.Last.{KeepsMachine};

use crate::last::Last;
use crate::status::{Device, Status};
use outside_io::Sink;
use run_files::AcceptedRun;
use run_report::run_reported;
use run_stream::RunFault;
use std::alloc::Global;

// The answer after all ticks.
fn status_after(breach: bool, fault: bool) -> Status
    ensures { result ≡ status_after_of breach fault }
{
    if breach {
        Status::Breach
    } else if fault {
        Status::RtFault
    } else {
        Status::Done
    }
}

/// Runs what was accepted and writes its output. The machine is kept where all ticks ran and all was written.
pub fn run_accepted<K: Sink>(
    alloc: Global,
    run: AcceptedRun,
    sink: &mut K,
    last: &mut Last,
) -> Status
    requires ready { IsReady run }
    requires limit { run.ticks ≤ 1000000000 }
    ensures told { IsDetermined result → AnswersBy (Ok run) result (K.written sink.old) (K.written sink.new) }
    ensures answer { HasRun result → AnswersBy (Ok run) result (K.written sink.old) (K.written sink.new) }
    ensures kept { HasRun result → KeepsMachine run last.new }
    ensures dropped { ¬ HasRun result → last.new ≡ Last.Nothing }
    ensures write { result ≡ Status.Outside Device.Write → Rose (K.faults sink.old) (K.faults sink.new) }
    ensures part { result ≡ Status.Outside Device.Write
        → AppendsPart (K.written sink.old) (K.written sink.new) (verdict_output (Ok run)) }
    ensures fault { K.faults sink.old < K.faults sink.new → result ≡ Status.Outside Device.Write }
    ensures memory { result ≡ Status.NoMemory → K.written sink.new ≡ K.written sink.old }
    ensures others { (result ≢ Status.Usage) × (result ≢ Status.Outside Device.Read) × (result ≢ refused_of 40 0) }
{
    *last = Last::Nothing;
    match run_reported(alloc, run, sink) {
        Ok(finished) => {
            *last = Last::Ran(finished.machine);
            status_after(finished.breach, finished.fault)
        }
        Err(RunFault::Sink) => Status::Outside(Device::Write),
        Err(RunFault::NoMemory) => Status::NoMemory,
    }
}
