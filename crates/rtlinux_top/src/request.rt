// What the words and the files come to, before anything runs.
ghost use Rattle.std.specs.Prelude.{◌≡◌, ◌≤◌, Option, length, IfOk, IfSome};
ghost use Rattle.outside_io.specs.Memory.{same_bytes};
ghost use Rattle.outside_io.specs.Store.{Files};
ghost use Rattle.command_words.specs.Make.{make_words_of};
ghost use Rattle.command_words.specs.Run.{run_words_of};
ghost use Rattle.run_files.specs.Refusal.{Accepts, Tells, FaultsBy, BlamesBytes, BlamesFile, IfUnread};
ghost use Rattle.run_files.specs.Verdict.{about, made_of_file};
ghost use Rattle.run_request.specs.Open.{IsReady};
ghost use Rattle.run_request.specs.Request.{FollowsWords};
ghost use Rattle.rtlinux_top.specs.Answers.{HasNoFiles, NamesAskedFile};
ghost use Rattle.rtlinux_top.specs.Words.{asked_of, flat_asked, make_asked, run_asked, texts};
ghost use Rattle.rtlinux_top.specs.Verdict.{verdict_of, asked_ticks, flat_in, known};

use crate::memory::{SIDE_SIZE, flat_sides};
use command_words::{is_name, is_number, read_ticks};
use item_list::Items;
use make_request::request_make;
use outside_io::Store;
use run_files::{AcceptedRun, Cause, Refusal, Report, Shown, refused};
use run_request::{fetch_file, no_script, request_run};
use std::alloc::Global;

// The run of a flat image of these bytes.
fn accept_flat(alloc: Global, name: &[u8], image: &[u8], ticks: u32) -> Result<AcceptedRun, Refusal>
    requires { length name.now ≤ 255 }
    ensures exact { Accepts result (about name.now (flat_in ticks image.now)) }
    ensures ready { IfOk result IsReady }
    ensures blame { BlamesBytes result }
{
    if image.len() > SIDE_SIZE as usize {
        return Err(refused(Cause::Outside, name));
    }
    match flat_sides(alloc, image) {
        Ok(sides) => Ok(AcceptedRun {
            sides,
            inits: Items::empty(alloc),
            version: 1,
            script: no_script(alloc),
            ticks,
            shown: Shown::Guest,
            report: Report::Lines,
        }),
        Err(_) => Err(Refusal::NoMemory),
    }
}

// Fetches a flat image.
fn open_flat<S: Store>(
    alloc: Global,
    store: &mut S,
    name: &str,
    ticks: u32,
) -> Result<AcceptedRun, Refusal>
    requires some { 1 ≤ length name.now }
    requires short { length name.now ≤ 255 }
    ensures told { IfSome (S.held store.old) (λ files. Tells result (made_of_file (flat_in ticks) files name.now)) }
    ensures unread { IfUnread result (λ unread. unread ≡ name.now) }
    ensures ticks { IfOk result (λ run. run.ticks ≡ ticks) }
    ensures ready { IfOk result IsReady }
    ensures blame { BlamesFile result }
    ensures cause { FaultsBy (S.faults store.old) (S.faults store.new) (S.failed_last store.new) result }
{
    match fetch_file(alloc, store, name) {
        Ok(content) => accept_flat(alloc, name.as_bytes(), content.as_slice(), ticks),
        Err(refusal) => Err(refusal),
    }
}

// The words behind `flat`.
#[tactic(auto, unfolding(crate::specs::Verdict::verdict_of))]
fn request_flat<S: Store>(
    alloc: Global,
    words: &[String],
    store: &mut S,
) -> Result<AcceptedRun, Refusal>
    ensures told { IfSome (known (flat_asked (texts words.now)) (S.held store.old)) (λ files.
        Tells result (verdict_of (flat_asked (texts words.now)) files)) }
    ensures unasked { HasNoFiles (flat_asked (texts words.now)) → store.new ≡ store.old }
    ensures words { FollowsWords result (asked_ticks (flat_asked (texts words.now))) }
    ensures unread { IfUnread result (NamesAskedFile (flat_asked (texts words.now)) (S.held store.old)) }
    ensures ready { IfOk result IsReady }
    ensures cause { FaultsBy (S.faults store.old) (S.faults store.new) (S.failed_last store.new) result }
{
    if words.len() != 2 {
        return Err(refused(Cause::Words, b""));
    }
    let image = words[0].as_str();
    let ticks = words[1].as_str();
    if !(is_name(image.as_bytes()) && is_number(ticks.as_bytes())) {
        return Err(refused(Cause::Words, b""));
    }
    match read_ticks(ticks.as_bytes()) {
        Some(count) => open_flat(alloc, store, image, count),
        None => Err(refused(Cause::Ticks, ticks.as_bytes())),
    }
}

// The words behind `run`.
#[tactic(auto, unfolding(crate::specs::Verdict::verdict_of))]
fn request_system<S: Store>(
    alloc: Global,
    words: &[String],
    store: &mut S,
) -> Result<AcceptedRun, Refusal>
    ensures told { IfSome (known (run_asked (run_words_of (texts words.now))) (S.held store.old)) (λ files.
        Tells result (verdict_of (run_asked (run_words_of (texts words.now))) files)) }
    ensures unasked { HasNoFiles (run_asked (run_words_of (texts words.now))) → store.new ≡ store.old }
    ensures words { FollowsWords result (asked_ticks (run_asked (run_words_of (texts words.now)))) }
    ensures unread { IfUnread result (NamesAskedFile (run_asked (run_words_of (texts words.now))) (S.held store.old)) }
    ensures ready { IfOk result IsReady }
    ensures cause { FaultsBy (S.faults store.old) (S.faults store.new) (S.failed_last store.new) result }
{
    request_run(alloc, words, store)
}

// The words behind `make`.
#[tactic(auto, unfolding(crate::specs::Verdict::verdict_of))]
fn request_made(alloc: Global, words: &[String]) -> Result<AcceptedRun, Refusal>
    ensures told { (held : Option Files) → IfSome (known (make_asked (make_words_of (texts words.now))) held) (λ files.
        Tells result (verdict_of (make_asked (make_words_of (texts words.now))) files)) }
    ensures words { FollowsWords result (asked_ticks (make_asked (make_words_of (texts words.now)))) }
    ensures unread { IfUnread result (λ name. ⊥) }
    ensures ready { IfOk result IsReady }
{
    request_make(alloc, words)
}

fn is_word(a: &[u8], b: &[u8]) -> bool
    ensures { result ≡ same_bytes a.now b.now }
{
    a == b
}

/// What the words and the store's files come to: the first refusal in the order of the words, the ticks and the files, or else
/// the run.
#[tactic(auto, unfolding(crate::specs::Words::asked_of, crate::specs::Verdict::verdict_of))]
pub fn read_request<S: Store>(
    alloc: Global,
    words: &[String],
    store: &mut S,
) -> Result<AcceptedRun, Refusal>
    ensures told { IfSome (known (asked_of (texts words.now)) (S.held store.old)) (λ files.
        Tells result (verdict_of (asked_of (texts words.now)) files)) }
    ensures unasked { HasNoFiles (asked_of (texts words.now)) → store.new ≡ store.old }
    ensures words { FollowsWords result (asked_ticks (asked_of (texts words.now))) }
    ensures unread { IfUnread result (NamesAskedFile (asked_of (texts words.now)) (S.held store.old)) }
    ensures ready { IfOk result IsReady }
    ensures cause { FaultsBy (S.faults store.old) (S.faults store.new) (S.failed_last store.new) result }
{
    if words.is_empty() {
        return Err(refused(Cause::Words, b""));
    }
    let command = words[0].as_str().as_bytes();
    if is_word(command, b"flat") {
        return request_flat(alloc, &words[1..], store);
    }
    if is_word(command, b"run") {
        return request_system(alloc, &words[1..], store);
    }
    if is_word(command, b"make") {
        return request_made(alloc, &words[1..]);
    }
    Err(refused(Cause::Words, b""))
}
