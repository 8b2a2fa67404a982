// Placing what has its place, which fails only where memory is refused.
ghost use Rattle.std.specs.Prelude.{◌≡◌, ◌+◌, ◌<◌, ◌^◌, length, IfOk, Ok, All};
ghost use Rattle.elf_loader.specs.Place.{FitsSize};
ghost use Rattle.run_files.specs.Modules.{with_module};
ghost use Rattle.run_files.specs.Sides.{sides_of};
ghost use Rattle.work_maker.specs.Module.{guest_size, real_time_size};
ghost use Rattle.make_request.specs.Placed.{HasPlace};

use elf_loader::{Image, PlaceRefusal};
use outside_io::NoMemory;
use run_files::{Loaded, Sides, load_module, make_sides};
use std::alloc::Global;
use work_maker::{GUEST_SIZE, REAL_TIME_SIZE};

/// Both sides, with a guest that has its place on one of them and the stub on the other.
pub fn place_guest(alloc: Global, guest: &Image) -> Result<Sides, NoMemory>
    requires fits { All FitsSize guest.now.segments }
    requires place { HasPlace (sides_of guest_size real_time_size guest.now) }
    ensures exact { IfOk result (λ sides. sides_of guest_size real_time_size guest.now ≡ Ok sides) }
    ensures guest_size { IfOk result (λ sides. length sides.memory.guest ≡ guest_size) }
    ensures real_time_size { IfOk result (λ sides. length sides.memory.real_time ≡ real_time_size) }
{
    match make_sides(alloc, GUEST_SIZE, REAL_TIME_SIZE, guest) {
        Ok(sides) => Ok(sides),
        Err(PlaceRefusal::Outside) => unreachable!(),
        Err(PlaceRefusal::Overlap) => unreachable!(),
        Err(PlaceRefusal::NoMemory) => Err(NoMemory),
    }
}

/// The sides with one more module, which has its place among what is there.
pub fn place_module(loaded: Loaded, module: &Image) -> Result<Loaded, NoMemory>
    requires fits { All FitsSize «module».now.segments }
    requires small { length loaded.sides.memory.guest + length loaded.sides.memory.real_time < 2 ^ 32 }
    requires place { HasPlace (with_module loaded «module».now) }
    ensures exact { IfOk result (λ next. with_module loaded «module».now ≡ Ok next) }
    ensures guest_size { IfOk result (λ next. length next.sides.memory.guest ≡ length loaded.sides.memory.guest) }
    ensures real_time_size { IfOk result (λ next. length next.sides.memory.real_time ≡ length loaded.sides.memory.real_time) }
    ensures count { IfOk result (λ next. length next.inits ≡ length loaded.inits + 1) }
{
    match load_module(loaded, module) {
        Ok(next) => Ok(next),
        Err(PlaceRefusal::Outside) => unreachable!(),
        Err(PlaceRefusal::Overlap) => unreachable!(),
        Err(PlaceRefusal::NoMemory) => Err(NoMemory),
    }
}
