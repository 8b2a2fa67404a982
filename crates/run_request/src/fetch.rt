// The files of a run, fetched.
ghost use Rattle.std.specs.Prelude.{◌≡◌, ◌≤◌, ◌<◌, ◌+◌, ◌^◌, length, IfOk, IfSome};
ghost use Rattle.device_script.specs.Event.{IsScript};
ghost use Rattle.run_files.specs.Files.{IsAccepted, system_in, sides_in, module_in, script_in, file_limit};
ghost use Rattle.run_files.specs.Refusal.{Tells, FaultsBy, BlamesFile, IfUnread};
ghost use Rattle.run_files.specs.Verdict.{made_of_file};
ghost use Rattle.run_request.specs.Fetch.{file_bytes};

use device_script::Script;
use item_list::Items;
use outside_io::{Fetched, Store, StoreFault};
use run_files::{
    Cause, FILE_LIMIT, Loaded, Refusal, Sides, accept_image, accept_module, accept_script,
    accept_system, refused,
};
use std::alloc::Global;
use system_file::System;

/// The bytes of a file, which are no more than the limit also where the store tells nothing.
pub fn fetch_file<S: Store>(alloc: Global, store: &mut S, name: &str) -> Result<Items<u8>, Refusal>
    requires some { 1 ≤ length name.now }
    requires short { length name.now ≤ 255 }
    ensures told { IfSome (S.held store.old) (λ files. Tells result (file_bytes files name.now)) }
    ensures stays { S.held store.new ≡ S.held store.old }
    ensures small { IfOk result (λ content. length content ≤ file_limit) }
    ensures unread { IfUnread result (λ unread. unread ≡ name.now) }
    ensures blame { BlamesFile result }
    ensures cause { FaultsBy (S.faults store.old) (S.faults store.new) (S.failed_last store.new) result }
{
    match store.fetch(alloc, name, FILE_LIMIT) {
        Ok(Fetched::Bytes(content)) => {
            if content.len() > FILE_LIMIT as usize {
                return Err(refused(Cause::TooLarge, name.as_bytes()));
            }
            Ok(content)
        }
        Ok(Fetched::Larger) => Err(refused(Cause::TooLarge, name.as_bytes())),
        Err(StoreFault::Failed) => Err(refused(Cause::Read, name.as_bytes())),
        Err(StoreFault::NoMemory) => Err(Refusal::NoMemory),
    }
}

/// The system of a file.
pub fn open_system<S: Store>(alloc: Global, store: &mut S, name: &str) -> Result<System, Refusal>
    requires some { 1 ≤ length name.now }
    requires short { length name.now ≤ 255 }
    ensures told { IfSome (S.held store.old) (λ files. Tells result (made_of_file system_in files name.now)) }
    ensures stays { S.held store.new ≡ S.held store.old }
    ensures fields { IfOk result IsAccepted }
    ensures unread { IfUnread result (λ unread. unread ≡ name.now) }
    ensures blame { BlamesFile result }
    ensures cause { FaultsBy (S.faults store.old) (S.faults store.new) (S.failed_last store.new) result }
{
    match fetch_file(alloc, store, name) {
        Ok(content) => accept_system(alloc, name.as_bytes(), content.as_slice()),
        Err(refusal) => Err(refusal),
    }
}

/// Both sides with a system's image.
pub fn open_image<S: Store>(alloc: Global, store: &mut S, system: &System) -> Result<Sides, Refusal>
    requires { IsAccepted system.now }
    ensures told { IfSome (S.held store.old) (λ files. Tells result (made_of_file (sides_in system.now) files system.now.image)) }
    ensures stays { S.held store.new ≡ S.held store.old }
    ensures guest_size { IfOk result (λ sides. length sides.memory.guest ≡ system.now.guest_memory) }
    ensures real_time_size { IfOk result (λ sides. length sides.memory.real_time ≡ system.now.real_time_memory) }
    ensures unread { IfUnread result (λ unread. unread ≡ system.now.image) }
    ensures blame { BlamesFile result }
    ensures cause { FaultsBy (S.faults store.old) (S.faults store.new) (S.failed_last store.new) result }
{
    let name = system.image.as_str();
    match fetch_file(alloc, store, name) {
        Ok(content) => accept_image(alloc, name.as_bytes(), system, content.as_slice()),
        Err(refusal) => Err(refusal),
    }
}

/// The sides with one more module, of a file.
pub fn open_module<S: Store>(
    alloc: Global,
    store: &mut S,
    name: &str,
    loaded: Loaded,
) -> Result<Loaded, Refusal>
    requires some { 1 ≤ length name.now }
    requires short { length name.now ≤ 255 }
    requires small { length loaded.sides.memory.guest + length loaded.sides.memory.real_time < 2 ^ 32 }
    ensures told { IfSome (S.held store.old) (λ files. Tells result (made_of_file (module_in loaded) files name.now)) }
    ensures stays { S.held store.new ≡ S.held store.old }
    ensures guest_size { IfOk result (λ next. length next.sides.memory.guest ≡ length loaded.sides.memory.guest) }
    ensures real_time_size { IfOk result (λ next. length next.sides.memory.real_time ≡ length loaded.sides.memory.real_time) }
    ensures count { IfOk result (λ next. length next.inits ≡ length loaded.inits + 1) }
    ensures unread { IfUnread result (λ unread. unread ≡ name.now) }
    ensures blame { BlamesFile result }
    ensures cause { FaultsBy (S.faults store.old) (S.faults store.new) (S.failed_last store.new) result }
{
    match fetch_file(alloc, store, name) {
        Ok(content) => accept_module(alloc, name.as_bytes(), loaded, content.as_slice()),
        Err(refusal) => Err(refusal),
    }
}

/// The script of a file.
pub fn open_script<S: Store>(alloc: Global, store: &mut S, name: &str) -> Result<Script, Refusal>
    requires some { 1 ≤ length name.now }
    requires short { length name.now ≤ 255 }
    ensures told { IfSome (S.held store.old) (λ files. Tells result (made_of_file script_in files name.now)) }
    ensures stays { S.held store.new ≡ S.held store.old }
    ensures rules { IfOk result (λ script. IsScript script.events) }
    ensures unread { IfUnread result (λ unread. unread ≡ name.now) }
    ensures blame { BlamesFile result }
    ensures cause { FaultsBy (S.faults store.old) (S.faults store.new) (S.failed_last store.new) result }
{
    match fetch_file(alloc, store, name) {
        Ok(content) => accept_script(alloc, name.as_bytes(), content.as_slice()),
        Err(refusal) => Err(refusal),
    }
}
