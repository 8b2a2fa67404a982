// The run of a system file.
ghost use Rattle.std.specs.Prelude.{◌≡◌, ◌≤◌, true, [], length, IfOk, IfSome, Some};
ghost use Rattle.outside_io.specs.Names.{IsName};
ghost use Rattle.system_file.specs.Fields.{is_version};
ghost use Rattle.run_files.specs.Files.{IsAccepted};
ghost use Rattle.run_files.specs.Refusal.{Tells, FaultsBy, BlamesFile, IfUnread};
ghost use Rattle.run_files.specs.Verdict.{system_verdict, image_verdict, modules_verdict, script_verdict};
ghost use Rattle.run_request.specs.Open.{IsReady, NamesFile, NamesImage, NamesModules};

use crate::fetch::{open_image, open_script, open_system};
use crate::modules::open_modules;
use device_script::Script;
use item_list::Items;
use outside_io::Store;
use run_files::{AcceptedRun, Loaded, Refusal, Report, Shown, Sides};
use std::alloc::Global;
use system_file::System;

/// Fetches the system file of this name, its image, its modules and its script, in this order, up to the first that is refused.
/// The run is of these ticks, and shows these lines.
#[tactic(auto, unfolding(run_files::specs::Verdict::system_verdict))]
pub fn open_run<S: Store>(
    alloc: Global,
    store: &mut S,
    name: &str,
    ticks: u32,
    shown: Shown,
) -> Result<AcceptedRun, Refusal>
    requires some { 1 ≤ length name.now }
    requires short { length name.now ≤ 255 }
    ensures told { IfSome (S.held store.old) (λ files. Tells result (system_verdict name.now ticks shown files)) }
    ensures unread { IfUnread result (λ unread. IfSome (S.held store.old) (λ files. NamesFile name.now files unread)) }
    ensures ready { IfOk result IsReady }
    ensures ticks { IfOk result (λ run. run.ticks ≡ ticks) }
    ensures shown { IfOk result (λ run. run.shown ≡ shown) }
    ensures stays { S.held store.new ≡ S.held store.old }
    ensures blame { BlamesFile result }
    ensures cause { FaultsBy (S.faults store.old) (S.faults store.new) (S.failed_last store.new) result }
{
    match open_system(alloc, store, name) {
        Ok(system) => open_behind_system(alloc, store, &system, ticks, shown),
        Err(refusal) => Err(refusal),
    }
}

// What stands behind an accepted system file.
fn open_behind_system<S: Store>(
    alloc: Global,
    store: &mut S,
    system: &System,
    ticks: u32,
    shown: Shown,
) -> Result<AcceptedRun, Refusal>
    requires { IsAccepted system.now }
    ensures told { IfSome (S.held store.old) (λ files. Tells result (image_verdict system.now ticks shown files)) }
    ensures unread { IfUnread result (λ unread. IfSome (S.held store.old) (λ files. NamesImage system.now files unread)) }
    ensures ready { IfOk result IsReady }
    ensures ticks { IfOk result (λ run. run.ticks ≡ ticks) }
    ensures shown { IfOk result (λ run. run.shown ≡ shown) }
    ensures stays { S.held store.new ≡ S.held store.old }
    ensures blame { BlamesFile result }
    ensures cause { FaultsBy (S.faults store.old) (S.faults store.new) (S.failed_last store.new) result }
{
    match open_image(alloc, store, system) {
        Ok(sides) => open_behind_image(alloc, store, system, sides, ticks, shown),
        Err(refusal) => Err(refusal),
    }
}

// What stands behind an accepted image.
fn open_behind_image<S: Store>(
    alloc: Global,
    store: &mut S,
    system: &System,
    sides: Sides,
    ticks: u32,
    shown: Shown,
) -> Result<AcceptedRun, Refusal>
    requires system { IsAccepted system.now }
    requires guest { (65536 ≤ length sides.memory.guest) × (length sides.memory.guest ≤ 16777216) }
    requires real_time { (65536 ≤ length sides.memory.real_time) × (length sides.memory.real_time ≤ 4194304) }
    ensures told { IfSome (S.held store.old) (λ files. Tells result (modules_verdict system.now sides ticks shown files)) }
    ensures unread { IfUnread result (λ unread. IfSome (S.held store.old) (λ files. NamesModules system.now sides files unread)) }
    ensures ready { IfOk result IsReady }
    ensures ticks { IfOk result (λ run. run.ticks ≡ ticks) }
    ensures shown { IfOk result (λ run. run.shown ≡ shown) }
    ensures stays { S.held store.new ≡ S.held store.old }
    ensures blame { BlamesFile result }
    ensures cause { FaultsBy (S.faults store.old) (S.faults store.new) (S.failed_last store.new) result }
{
    match open_modules(alloc, store, system.modules.as_slice(), sides) {
        Ok(loaded) => open_behind_modules(alloc, store, system, loaded, ticks, shown),
        Err(refusal) => Err(refusal),
    }
}

// What stands behind accepted modules.
fn open_behind_modules<S: Store>(
    alloc: Global,
    store: &mut S,
    system: &System,
    loaded: Loaded,
    ticks: u32,
    shown: Shown,
) -> Result<AcceptedRun, Refusal>
    requires name { IfSome system.now.script IsName }
    requires version { is_version system.now.version ≡ true }
    requires guest { (65536 ≤ length loaded.sides.memory.guest) × (length loaded.sides.memory.guest ≤ 16777216) }
    requires real_time { (65536 ≤ length loaded.sides.memory.real_time) × (length loaded.sides.memory.real_time ≤ 4194304) }
    requires few { length loaded.inits ≤ 16 }
    ensures told { IfSome (S.held store.old) (λ files. Tells result (script_verdict system.now loaded ticks shown files)) }
    ensures unread { IfUnread result (λ unread. system.now.script ≡ Some unread) }
    ensures ready { IfOk result IsReady }
    ensures ticks { IfOk result (λ run. run.ticks ≡ ticks) }
    ensures shown { IfOk result (λ run. run.shown ≡ shown) }
    ensures stays { S.held store.new ≡ S.held store.old }
    ensures blame { BlamesFile result }
    ensures cause { FaultsBy (S.faults store.old) (S.faults store.new) (S.failed_last store.new) result }
{
    let name = match &system.script {
        Some(name) => name.as_str(),
        None => {
            return Ok(AcceptedRun {
                sides: loaded.sides,
                inits: loaded.inits,
                version: system.version,
                script: no_script(alloc),
                ticks,
                shown,
                report: Report::Lines,
            });
        }
    };
    match open_script(alloc, store, name) {
        Ok(script) => Ok(AcceptedRun {
            sides: loaded.sides,
            inits: loaded.inits,
            version: system.version,
            script,
            ticks,
            shown,
            report: Report::Lines,
        }),
        Err(refusal) => Err(refusal),
    }
}

/// A script without events.
pub fn no_script(alloc: Global) -> Script
    ensures { result.events ≡ [] }
{
    Script {
        events: Items::empty(alloc),
    }
}
