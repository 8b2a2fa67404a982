// The top call.
ghost use Rattle.std.specs.Prelude.{◌≡◌, ◌≢◌, ◌<◌, ◌⊎◌, IfSome};
ghost use Rattle.outside_io.specs.Causes.{Rose};
ghost use Rattle.outside_io.specs.Sink.{appended};
ghost use Rattle.run_files.specs.Line.{refusal_text};
ghost use Rattle.run_files.specs.declared.run.AcceptedRun.{AcceptedRun};
ghost use Rattle.rtlinux_top.specs.Answers.{AnswersTo, AnswersWords, HasNoFiles, RefusesTicks, ReadFailed, WritesPart, WritesPartOfLine, Runs};
ghost use Rattle.rtlinux_top.specs.Course.{IsCourse};
ghost use Rattle.rtlinux_top.specs.Solution.{WritesSolution};
ghost use Rattle.rtlinux_top.specs.Status.{IsDetermined, HasRun};
ghost use Rattle.rtlinux_top.specs.Verdict.{known, verdict_of, refused_by as refused_of};
ghost use Rattle.rtlinux_top.specs.Words.{command_of, Unknown};

use crate::last::Last;
use crate::request::read_request;
use crate::run::run_accepted;
use crate::status::{Device, Status, status_by};
use outside_io::{Sink, Store};
use run_files::{Cause, Refusal, refusal_line};
use std::alloc::Global;

// The answer to the words, with what is written.
fn answer<S: Store, K: Sink>(
    alloc: Global,
    words: &Vec<String>,
    store: &mut S,
    sink: &mut K,
    last: &mut Last,
) -> Status
    ensures course { IsCourse (command_of words.now.items) (S.held store.old)
        (S.faults store.old) (S.faults store.new) (S.failed_last store.new)
        (K.written sink.old) (K.written sink.new) (K.faults sink.old) (K.faults sink.new) last.new result }
    ensures kept { HasRun result → (run : AcceptedRun) × Runs (command_of words.now.items) (S.held store.old) result
        (K.written sink.old) (K.written sink.new) last.new run }
    ensures after_write { result ≡ Status.Outside Device.Write → IfSome (known (command_of words.now.items) (S.held store.old)) (λ files.
        WritesPart (command_of words.now.items) files (K.written sink.old) (K.written sink.new)
        ⊎ (ReadFailed (command_of words.now.items) (S.held store.old)
        (S.faults store.old) (S.faults store.new) (S.failed_last store.new)
        × WritesPartOfLine (S.failed_last store.new) (K.written sink.old) (K.written sink.new))) }
    ensures unasked { HasNoFiles (command_of words.now.items) → store.new ≡ store.old }
{
    match read_request(alloc, words.as_slice(), store) {
        Ok(run) => run_accepted(alloc, run, sink, last),
        Err(Refusal::Because(cause, subject)) => {
            *last = Last::Nothing;
            match sink.put(refusal_line(cause, subject.as_slice()).as_bytes()) {
                Ok(()) => status_by(cause),
                Err(_) => Status::Outside(Device::Write),
            }
        }
        Err(Refusal::NoMemory) => {
            *last = Last::Nothing;
            Status::NoMemory
        }
    }
}

/// Does all that the program does for the words after its name.
///
/// `flat IMAGE TICKS` runs the file IMAGE, which stands at address 0 of a guest's side of 65,536 bytes, for so many ticks,
/// and writes its G lines and its first end line. `run SYSTEM --ticks N [--hardware]` runs the system file SYSTEM with its image and
/// its script, and writes the lines of both halves with all end lines, and with `--hardware` those of the hardware between them.
/// `make NUMBER --ticks N` runs the system that is made of NUMBER, and writes three lines that sum up what `run` would write of it: how
/// many lines there are of each half, and the SHA-256 digest of them all. Each line is one put. A refusal writes one error line and
/// nothing else. `last` is the machine that ran, where all ticks ran and all was written, and else nothing.
pub fn rtlinux<S: Store, K: Sink>(
    alloc: Global,
    words: &Vec<String>,
    store: &mut S,
    sink: &mut K,
    last: &mut Last,
) -> Status
    // The headline: the guest's lines that `run` writes are those of the bare machine on the image beside the real-time lines, and
    // these are those of the priority schedule beside the guest's calls. One pair of lines meets both, and in what is written each half
    // finds just its own lines; the hardware's lines, where they are asked for, are those of its definition beside both. `make` sums
    // such lines up: its counts and its digest are those of the one pair.
    ensures headline { IsDetermined result → IfSome (known (command_of words.now.items) (S.held store.old)) (λ files.
        WritesSolution (verdict_of (command_of words.now.items) files) (K.written sink.old) (K.written sink.new)) }

    // What the words and the files determine: the answer, and all that is written.
    ensures told { IsDetermined result
        → AnswersTo (command_of words.now.items) (S.held store.old) result (K.written sink.old) (K.written sink.new) }
    ensures complete { ¬ Rose (S.faults store.old) (S.faults store.new) → ¬ Rose (K.faults sink.old) (K.faults sink.new)
        → result ≢ Status.NoMemory
        → AnswersTo (command_of words.now.items) (S.held store.old) result (K.written sink.old) (K.written sink.new) }

    // What the words alone determine, whatever the store tells: refused words and ticks, with their lines.
    ensures early { IsDetermined result
        → AnswersWords (command_of words.now.items) result (K.written sink.old) (K.written sink.new) }
    ensures usage { result ≡ Status.Usage → command_of words.now.items ≡ Unknown }
    ensures ticks { result ≡ refused_of 40 0 → RefusesTicks (command_of words.now.items) }

    // A fault outside comes only where its count rose, and none is passed over.
    ensures read { result ≡ Status.Outside Device.Read
        → ReadFailed (command_of words.now.items) (S.held store.old)
        (S.faults store.old) (S.faults store.new) (S.failed_last store.new) }
    ensures read_text { result ≡ Status.Outside Device.Read
        → K.written sink.new ≡ appended (K.written sink.old) (refusal_text Cause.Read (S.failed_last store.new)) }
    ensures write { result ≡ Status.Outside Device.Write → Rose (K.faults sink.old) (K.faults sink.new) }
    ensures sink_fault { K.faults sink.old < K.faults sink.new → result ≡ Status.Outside Device.Write }
    ensures store_fault { S.faults store.old < S.faults store.new
        → (result ≡ Status.Outside Device.Read) ⊎ (result ≡ Status.Outside Device.Write) }
    // After a failed put a first part of the output was written, or of the line of a file that couldn't be read.
    ensures after_write { result ≡ Status.Outside Device.Write → IfSome (known (command_of words.now.items) (S.held store.old)) (λ files.
        WritesPart (command_of words.now.items) files (K.written sink.old) (K.written sink.new)
        ⊎ (ReadFailed (command_of words.now.items) (S.held store.old)
        (S.faults store.old) (S.faults store.new) (S.failed_last store.new)
        × WritesPartOfLine (S.failed_last store.new) (K.written sink.old) (K.written sink.new))) }

    // For a system that is made no file is fetched: the store isn't touched.
    ensures unasked { HasNoFiles (command_of words.now.items) → store.new ≡ store.old }

    // Want of memory writes nothing.
    ensures memory { result ≡ Status.NoMemory → K.written sink.new ≡ K.written sink.old }

    // The run of such an answer, whatever the store tells, and its machine, which stands for the three states of the definitions after all
    // ticks: the bare machine's, the real-time side's and the hardware's.
    ensures kept { HasRun result → (run : AcceptedRun) × Runs (command_of words.now.items) (S.held store.old) result
        (K.written sink.old) (K.written sink.new) last.new run }
    ensures dropped { ¬ HasRun result → last.new ≡ Last.Nothing }
{
    answer(alloc, words, store, sink, last)
}
