// The modules of a system, fetched.
ghost use Rattle.std.specs.Prelude.{◌≡◌, ◌≤◌, ◌<◌, ◌+◌, ◌^◌, length, IfOk, IfSome, All};
ghost use Rattle.outside_io.specs.Names.{IsName};
ghost use Rattle.run_files.specs.Modules.{before_modules};
ghost use Rattle.run_files.specs.Refusal.{Tells, FaultsBy, BlamesFile, IfUnread};
ghost use Rattle.run_files.specs.Verdict.{modules_loaded};
ghost use Rattle.run_request.specs.Open.{NamesModule};

use crate::fetch::open_module;
use outside_io::Store;
use run_files::{Loaded, Refusal, Sides, reserve};
use std::alloc::Global;
use system_file::Name;

/// The sides with the modules of these names, fetched in this order up to the first that is refused.
pub fn open_modules<S: Store>(
    alloc: Global,
    store: &mut S,
    names: &[Name],
    sides: Sides,
) -> Result<Loaded, Refusal>
    requires names { All IsName names.now }
    requires room { 4096 ≤ length sides.memory.real_time }
    requires small { length sides.memory.guest + length sides.memory.real_time < 2 ^ 32 }
    ensures told { IfSome (S.held store.old) (λ files. Tells result (modules_loaded files (before_modules sides) names.now)) }
    ensures unread { IfUnread result (λ unread. IfSome (S.held store.old) (λ files. NamesModule files (before_modules sides) names.now unread)) }
    ensures stays { S.held store.new ≡ S.held store.old }
    ensures guest_size { IfOk result (λ loaded. length loaded.sides.memory.guest ≡ length sides.memory.guest) }
    ensures real_time_size { IfOk result (λ loaded. length loaded.sides.memory.real_time ≡ length sides.memory.real_time) }
    ensures count { IfOk result (λ loaded. length loaded.inits ≡ length names.now) }
    ensures blame { BlamesFile result }
    ensures cause { FaultsBy (S.faults store.old) (S.faults store.new) (S.failed_last store.new) result }
{
    match reserve(alloc, sides) {
        Ok(loaded) => open_each(alloc, store, names, loaded),
        Err(_) => Err(Refusal::NoMemory),
    }
}

// The modules of these names behind those that were placed.
fn open_each<S: Store>(
    alloc: Global,
    store: &mut S,
    names: &[Name],
    loaded: Loaded,
) -> Result<Loaded, Refusal>
    requires names { All IsName names.now }
    requires small { length loaded.sides.memory.guest + length loaded.sides.memory.real_time < 2 ^ 32 }
    ensures told { IfSome (S.held store.old) (λ files. Tells result (modules_loaded files loaded names.now)) }
    ensures unread { IfUnread result (λ unread. IfSome (S.held store.old) (λ files. NamesModule files loaded names.now unread)) }
    ensures stays { S.held store.new ≡ S.held store.old }
    ensures guest_size { IfOk result (λ next. length next.sides.memory.guest ≡ length loaded.sides.memory.guest) }
    ensures real_time_size { IfOk result (λ next. length next.sides.memory.real_time ≡ length loaded.sides.memory.real_time) }
    ensures count { IfOk result (λ next. length next.inits ≡ length loaded.inits + length names.now) }
    ensures blame { BlamesFile result }
    ensures cause { FaultsBy (S.faults store.old) (S.faults store.new) (S.failed_last store.new) result }
{
    let mut so_far = loaded;
    for name in names {
        match open_module(alloc, store, name.as_str(), so_far) {
            Ok(next) => so_far = next,
            Err(refusal) => return Err(refusal),
        }
    }
    Ok(so_far)
}
