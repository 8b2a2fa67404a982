// The modules on the real-time side.
ghost use Rattle.std.specs.Prelude.{◌≡◌, ◌≤◌, ◌<◌, ◌+◌, ◌^◌, length, IfOk, All};
ghost use Rattle.flat_memory.specs.Side.{side_at};
ghost use Rattle.elf_loader.specs.Place.{FitsSize, PlacesOnSide};
ghost use Rattle.run_files.specs.Modules.{real_time_side, before_modules, with_module, LoadsModule};

use crate::sides::Sides;
use crate::stub::reserved_spans;
use elf_loader::{Image, PlaceRefusal, Spans, place};
use flat_memory::{FlatMemory, Side};
use item_list::Items;
use outside_io::NoMemory;
use std::alloc::Global;

/// Both sides with the modules that were placed so far.
#[derive(Drop)]
pub struct Loaded {
    /// Both sides of memory and the guest's entry.
    pub sides: Sides,
    /// The ranges of the real-time side that are taken: the reserved ones, and those of the modules.
    pub taken: Spans,
    /// The entries of the modules' inits, in their order.
    pub inits: Items<u32>,
}

/// Reserves the ranges of the stub and of the stack, before the first module.
pub fn reserve(alloc: Global, sides: Sides) -> Result<Loaded, NoMemory>
    requires room { 4096 ≤ length sides.memory.real_time }
    requires small { length sides.memory.guest + length sides.memory.real_time < 2 ^ 32 }
    ensures { IfOk result (λ loaded. loaded ≡ before_modules sides) }
{
    let guest_size = sides.memory.guest_bytes().len() as u32;
    let real_time_size = sides.memory.real_time_bytes().len() as u32;
    let taken = reserved_spans(alloc, guest_size, real_time_size)?;
    Ok(Loaded {
        sides,
        taken,
        inits: Items::empty(alloc),
    })
}

/// Places an image on the real-time side, takes its ranges, and answers the address of its first instruction. A refusal
/// changes nothing.
pub fn place_module(
    memory: &mut FlatMemory,
    taken: &mut Spans,
    image: &Image,
) -> Result<u32, PlaceRefusal>
    requires fits { All FitsSize image.now.segments }
    requires small { length memory.old.guest + length memory.old.real_time < 2 ^ 32 }
    ensures placed { PlacesOnSide image.now (real_time_side memory.old) (real_time_side memory.new) taken.old taken.new result }
    ensures guest { memory.new.guest ≡ memory.old.guest }
    ensures size { length memory.new.real_time ≡ length memory.old.real_time }
{
    let first = memory.guest_bytes().len() as u32;
    place_from(first, memory.real_time(), taken, image)
}

// Places an image over bytes from this address on.
#[tactic(auto, using(crate::proofs::Placed::stays))]
fn place_from(
    first: u32,
    bytes: &mut [u8],
    taken: &mut Spans,
    image: &Image,
) -> Result<u32, PlaceRefusal>
    requires fits { All FitsSize image.now.segments }
    requires small { first + length bytes.old < 2 ^ 32 }
    ensures { PlacesOnSide image.now (side_at first bytes.old) (side_at first bytes.new) taken.old taken.new result }
{
    let mut side = Side::new(first, bytes);
    place(image, &mut side, taken)
}

/// Places one more module, whose entry is its init.
#[tactic(auto, unfolding(crate::specs::Modules::with_module))]
pub fn load_module(loaded: Loaded, image: &Image) -> Result<Loaded, PlaceRefusal>
    requires fits { All FitsSize image.now.segments }
    requires small { length loaded.sides.memory.guest + length loaded.sides.memory.real_time < 2 ^ 32 }
    ensures exact { LoadsModule result (with_module loaded image.now) }
    ensures guest_size { IfOk result (λ next. length next.sides.memory.guest ≡ length loaded.sides.memory.guest) }
    ensures real_time_size { IfOk result (λ next. length next.sides.memory.real_time ≡ length loaded.sides.memory.real_time) }
    ensures count { IfOk result (λ next. length next.inits ≡ length loaded.inits + 1) }
{
    let Loaded {
        sides,
        mut taken,
        mut inits,
    } = loaded;
    let Sides { mut memory, entry } = sides;
    let init = place_module(&mut memory, &mut taken, image)?;
    if inits.push(init).is_err() {
        return Err(PlaceRefusal::NoMemory);
    }
    Ok(Loaded {
        sides: Sides { memory, entry },
        taken,
        inits,
    })
}
