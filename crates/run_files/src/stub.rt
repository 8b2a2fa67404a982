// What of the real-time side is the executive's own: the stub at its first address, and a stack at its end.
ghost use Rattle.std.specs.Prelude.{◌≡◌, ◌≤◌, ◌<◌, ◌+◌, ◌^◌, length, IfOk};
ghost use Rattle.run_files.specs.Stub.{stub_stored, reserved_of};

use elf_loader::Spans;
use flat_memory::FlatMemory;
use outside_io::NoMemory;
use std::alloc::Global;

/// The bytes of INT F9h, the return from a real-time activity. They stand at the first address of the real-time side, so
/// that a RET to this address ends the activity.
pub const STUB: [u8; 2] = [0xCD, 0xF9];
/// How many bytes are reserved for the stub.
pub const STUB_ROOM: u32 = 16;
/// How many bytes are reserved at the end of the real-time side, for the stack of inits and handlers.
pub const STACK_SIZE: u32 = 4_096;

/// Stores the stub at the first address of the real-time side.
pub fn store_stub(memory: &mut FlatMemory)
    requires { 2 ≤ length memory.old.real_time }
    ensures { memory.new ≡ record memory.old { real_time = stub_stored memory.old.real_time } }
{
    write_stub(memory.real_time());
}

fn write_stub(bytes: &mut [u8])
    requires { 2 ≤ length bytes.old }
    ensures { bytes.new ≡ stub_stored bytes.old }
{
    bytes[0] = STUB[0];
    bytes[1] = STUB[1];
}

/// The ranges of the real-time side that are taken before any module is placed: those of the stub and of the stack. The
/// side begins at `guest_size`, and has `real_time_size` bytes.
pub fn reserved_spans(
    alloc: Global,
    guest_size: u32,
    real_time_size: u32,
) -> Result<Spans, NoMemory>
    requires room { 4096 ≤ real_time_size }
    requires small { guest_size + real_time_size < 2 ^ 32 }
    ensures { IfOk result (λ spans. spans ≡ reserved_of guest_size real_time_size) }
{
    let end = guest_size + real_time_size;
    let spans = [
        (guest_size, guest_size + STUB_ROOM),
        (end - STACK_SIZE, end),
    ];
    match Vec::from_slice(alloc, &spans) {
        Ok(spans) => Ok(Spans::new(spans)),
        Err(_) => Err(NoMemory),
    }
}
