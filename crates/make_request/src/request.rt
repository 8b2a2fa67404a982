// The request of the words.
ghost use Rattle.std.specs.Prelude.{IfOk, map, string_bytes};
ghost use Rattle.command_words.specs.Make.{make_words_of};
ghost use Rattle.run_files.specs.Refusal.{Accepts, IfUnread};
ghost use Rattle.run_request.specs.Open.{IsReady};
ghost use Rattle.run_request.specs.Request.{FollowsWords};
ghost use Rattle.make_request.specs.Made.{make_ticks, make_verdict};

use crate::run::make_run;
use command_words::{WordsRefusal, read_make_words, read_ticks};
use run_files::{AcceptedRun, Cause, Refusal, refused};
use std::alloc::Global;

/// What the words behind `make` come to: the refusal of the words, or else of the ticks, or else the run of the system that is
/// made of their number. No file is read.
pub fn request_make(alloc: Global, words: &[String]) -> Result<AcceptedRun, Refusal>
    ensures told { Accepts result (make_verdict (make_words_of (map string_bytes words.now))) }
    ensures words { FollowsWords result (make_ticks (make_words_of (map string_bytes words.now))) }
    ensures unread { IfUnread result (λ name. ⊥) }
    ensures ready { IfOk result IsReady }
{
    let make = match read_make_words(alloc, words) {
        Ok(make) => make,
        Err(WordsRefusal::Usage) => return Err(refused(Cause::Words, b"")),
        Err(WordsRefusal::NoMemory) => return Err(Refusal::NoMemory),
    };
    let ticks = match read_ticks(make.ticks.as_bytes()) {
        Some(ticks) => ticks,
        None => return Err(refused(Cause::Ticks, make.ticks.as_bytes())),
    };
    match make_run(alloc, make.number, ticks) {
        Ok(run) => Ok(run),
        Err(_) => Err(Refusal::NoMemory),
    }
}
