// The request of the words.
ghost use Rattle.std.specs.Prelude.{◌≡◌, IfOk, IfSome, map, string_bytes};
ghost use Rattle.command_words.specs.Run.{run_words_of};
ghost use Rattle.run_files.specs.Refusal.{Tells, FaultsBy, IfUnread};
ghost use Rattle.run_files.specs.Verdict.{run_ticks, run_verdict, shown_by};
ghost use Rattle.run_request.specs.Open.{IsReady};
ghost use Rattle.run_request.specs.Request.{FollowsWords, NamesRunFile, ShowsAsked};

use crate::open::open_run;
use command_words::{WordsRefusal, read_run_words, read_ticks};
use outside_io::Store;
use run_files::{AcceptedRun, Cause, Refusal, Shown, refused};
use std::alloc::Global;

/// What the words behind `run` and the store's files come to: the first refusal in the order of the words, the ticks, the
/// system file, the image, the modules and the script, or else the run.
pub fn request_run<S: Store>(
    alloc: Global,
    words: &[String],
    store: &mut S,
) -> Result<AcceptedRun, Refusal>
    ensures told { IfSome (S.held store.old) (λ files.
        Tells result (run_verdict (run_words_of (map string_bytes words.now)) files)) }
    ensures words { FollowsWords result (run_ticks (run_words_of (map string_bytes words.now))) }
    ensures unread { IfUnread result (NamesRunFile (run_words_of (map string_bytes words.now)) (S.held store.old)) }
    ensures ready { IfOk result IsReady }
    ensures shown { IfOk result (ShowsAsked (run_words_of (map string_bytes words.now))) }
    ensures stays { S.held store.new ≡ S.held store.old }
    ensures cause { FaultsBy (S.faults store.old) (S.faults store.new) (S.failed_last store.new) result }
{
    let run = match read_run_words(alloc, words) {
        Ok(run) => run,
        Err(WordsRefusal::Usage) => return Err(refused(Cause::Words, b"")),
        Err(WordsRefusal::NoMemory) => return Err(Refusal::NoMemory),
    };
    match read_ticks(run.ticks.as_bytes()) {
        Some(ticks) => open_run(alloc, store, run.system, ticks, lines_asked(run.hardware)),
        None => Err(refused(Cause::Ticks, run.ticks.as_bytes())),
    }
}

// Which lines the words ask for.
fn lines_asked(hardware: bool) -> Shown
    ensures { result ≡ shown_by hardware }
{
    if hardware {
        Shown::WithHardware
    } else {
        Shown::Both
    }
}
