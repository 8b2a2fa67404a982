// The image on the guest's side.
ghost use Rattle.std.specs.Prelude.{◌≡◌, ◌<◌, ◌^◌, length, All};
ghost use Rattle.elf_loader.specs.Place.{FitsSize};
ghost use Rattle.run_files.specs.Guest.{PlacesOnGuest};

use elf_loader::{Image, PlaceRefusal, Spans, place};
use flat_memory::{FlatMemory, Side};
use std::alloc::Global;

/// Places an image on the guest's side, of which nothing is reserved, and answers the address of its first instruction.
/// A refusal changes nothing.
pub fn place_image(
    alloc: Global,
    memory: &mut FlatMemory,
    image: &Image,
) -> Result<u32, PlaceRefusal>
    requires fits { All FitsSize image.now.segments }
    requires small { length memory.old.guest < 2 ^ 32 }
    ensures placed { PlacesOnGuest memory.old.guest image.now memory.new.guest result }
    ensures size { length memory.new.guest ≡ length memory.old.guest }
    ensures real_time { memory.new.real_time ≡ memory.old.real_time }
{
    place_on_guest(alloc, memory.guest(), image)
}

// Places an image over bytes from address 0 on.
#[tactic(auto, unfolding(crate::specs::Guest::placing_of))]
fn place_on_guest(alloc: Global, bytes: &mut [u8], image: &Image) -> Result<u32, PlaceRefusal>
    requires fits { All FitsSize image.now.segments }
    requires small { length bytes.old < 2 ^ 32 }
    ensures { PlacesOnGuest bytes.old image.now bytes.new result }
{
    let mut side = Side::new(0, bytes);
    let mut taken = Spans::empty(alloc);
    place(image, &mut side, &mut taken)
}
