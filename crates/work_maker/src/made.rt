// What is made of a number.

ghost use Rattle.std.specs.Prelude.{◌≡◌, IfOk, All};
ghost use Rattle.elf_loader.specs.Place.{FitsSize};
ghost use Rattle.device_script.specs.Event.{IsScript};
ghost use Rattle.work_maker.specs.Made.{made_of};

use crate::draws::Draws;
use crate::guest::guest;
use crate::module::draw_module;
use crate::script::{draw_events, event_count};
use device_script::Script;
use elf_loader::Image;
use outside_io::NoMemory;
use std::alloc::{AllocError, Global};

/// The size in bytes of the guest's side for which the images are made.
pub const GUEST_SIZE: u32 = 1_048_576;
/// The size in bytes of the real-time side for which the module is made; it begins where the guest's side ends.
pub const REAL_TIME_SIZE: u32 = 262_144;

/// A system: a guest, a module for the real-time side, and a script.
#[derive(Drop)]
pub struct Made {
    pub guest: Image,
    pub module: Image,
    pub script: Script,
}

/// Makes the system of a number, with the script of a run of so many ticks. It fails only where memory is refused.
#[tactic(auto, using(crate::proofs::Fits::guest_fits, crate::proofs::Fits::module_fits))]
pub fn make(alloc: Global, number: u32, ticks: u32) -> Result<Made, NoMemory>
    ensures exact { IfOk result (λ made. made ≡ made_of number ticks) }
    ensures guest_fits { IfOk result (λ made. All FitsSize made.guest.segments) }
    ensures module_fits { IfOk result (λ made. All FitsSize made.«module».segments) }
    ensures rules { IfOk result (λ made. IsScript made.script.events) }
{
    match make_all(alloc, number, ticks) {
        Ok(made) => Ok(made),
        Err(_) => Err(NoMemory),
    }
}

// The draws, in their order.
#[tactic(auto, unfolding(crate::specs::Script::events_of))]
fn make_all(alloc: Global, number: u32, ticks: u32) -> Result<Made, AllocError>
    ensures { IfOk result (λ made. made ≡ made_of number ticks) }
{
    let mut draws = Draws::new(number);
    let module = draw_module(alloc, &mut draws)?;
    let guest = guest(alloc, draws.guest_period())?;
    let events = draw_events(alloc, &mut draws, event_count(ticks))?;
    Ok(Made {
        guest,
        module,
        script: Script { events },
    })
}
