// The memory of a flat image.
ghost use Rattle.std.specs.Prelude.{◌≡◌, ◌≤◌, ◌++◌, length, drop, IfOk};
ghost use Rattle.rtlinux_top.specs.Run.{flat_sides as sides_of};

use flat_memory::FlatMemory;
use outside_io::NoMemory;
use run_files::{Sides, store_stub};
use std::alloc::Global;

/// How many bytes each side has, and so the most bytes of an image that is run flat.
pub const SIDE_SIZE: u32 = 65_536;

// Writes bytes over the front of others.
fn write_front(part: &mut [u8], bytes: &[u8])
    requires { length bytes.now ≤ length part.old }
    ensures { part.new ≡ bytes.now ++ drop (length bytes.now) part.old }
{
    part[..bytes.len()].copy_from_slice(bytes);
}

fn load_front(memory: &mut FlatMemory, image: &[u8])
    requires { length image.now ≤ length memory.old.guest }
    ensures guest { memory.new.guest ≡ image.now ++ drop (length image.now) memory.old.guest }
    ensures real_time { memory.new.real_time ≡ memory.old.real_time }
    ensures size { length memory.new.guest ≡ length memory.old.guest }
{
    write_front(memory.guest(), image);
}

/// Two sides of 65,536 bytes, with an image at address 0 of the guest's and the stub on the other, and the entry 0.
#[tactic(auto, unfolding(crate::specs::Run::flat_sides))]
pub fn flat_sides(alloc: Global, image: &[u8]) -> Result<Sides, NoMemory>
    requires { length image.now ≤ 65536 }
    ensures sides { IfOk result (λ sides. sides ≡ sides_of image.now) }
    ensures guest_size { IfOk result (λ sides. length sides.memory.guest ≡ 65536) }
    ensures real_time_size { IfOk result (λ sides. length sides.memory.real_time ≡ 65536) }
{
    let mut memory = FlatMemory::new(alloc, SIDE_SIZE, SIDE_SIZE)?;
    load_front(&mut memory, image);
    store_stub(&mut memory);
    Ok(Sides { memory, entry: 0 })
}
