// The run of a number.
ghost use Rattle.std.specs.Prelude.{◌≡◌, IfOk};
ghost use Rattle.run_request.specs.Open.{IsReady};
ghost use Rattle.make_request.specs.Made.{made_run};

use crate::laws::{guest_has_its_place, module_has_its_place};
use crate::place::{place_guest, place_module};
use outside_io::NoMemory;
use run_files::{AcceptedRun, Report, Shown, reserve};
use std::alloc::Global;
use work_maker::make;

/// The version of the rule that picks among ready threads of equal priority: the one that came first goes first.
const VERSION: u8 = 1;

/// Makes the system of this number, with the script of so many ticks, and puts its guest and its module in their places. It fails
/// only where memory is refused.
pub fn make_run(alloc: Global, number: u32, ticks: u32) -> Result<AcceptedRun, NoMemory>
    ensures exact { IfOk result (λ run. run ≡ made_run number ticks) }
    ensures ready { IfOk result IsReady }
{
    guest_has_its_place();
    module_has_its_place();
    let made = make(alloc, number, ticks)?;
    let sides = place_guest(alloc, &made.guest)?;
    let before = reserve(alloc, sides)?;
    let loaded = place_module(before, &made.module)?;
    Ok(AcceptedRun {
        sides: loaded.sides,
        inits: loaded.inits,
        version: VERSION,
        script: made.script,
        ticks,
        shown: Shown::Both,
        report: Report::Summary(number),
    })
}
