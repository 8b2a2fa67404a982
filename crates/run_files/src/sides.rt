// Both sides as a run starts.
ghost use Rattle.std.specs.Prelude.{◌≡◌, ◌≤◌, length, IfOk, All};
ghost use Rattle.elf_loader.specs.Place.{FitsSize};
ghost use Rattle.run_files.specs.Sides.{sides_of, MakesSides};

use crate::image::place_image;
use crate::stub::store_stub;
use elf_loader::{Image, PlaceRefusal};
use flat_memory::FlatMemory;
use std::alloc::Global;

/// Both sides as a run starts, and the address of the guest's first instruction.
#[derive(Drop)]
pub struct Sides {
    pub memory: FlatMemory,
    pub entry: u32,
}

/// Makes a memory of zeros of these two sizes, and puts the image on the guest's side and the stub on the real-time side.
#[tactic(auto, unfolding(crate::specs::Sides::sides_of))]
pub fn make_sides(
    alloc: Global,
    guest_size: u32,
    real_time_size: u32,
    image: &Image,
) -> Result<Sides, PlaceRefusal>
    requires fits { All FitsSize image.now.segments }
    requires room { 2 ≤ real_time_size }
    ensures exact { MakesSides result (sides_of guest_size real_time_size image.now) }
    ensures guest_size { IfOk result (λ sides. length sides.memory.guest ≡ guest_size) }
    ensures real_time_size { IfOk result (λ sides. length sides.memory.real_time ≡ real_time_size) }
{
    let mut memory = match FlatMemory::new(alloc, guest_size, real_time_size) {
        Ok(memory) => memory,
        Err(_) => return Err(PlaceRefusal::NoMemory),
    };
    let entry = place_image(alloc, &mut memory, image)?;
    store_stub(&mut memory);
    Ok(Sides { memory, entry })
}
