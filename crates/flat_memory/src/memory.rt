// The memory.
ghost use Rattle.std.specs.Prelude.{◌≡◌, ◌+◌, ◌≤◌, IfOk, length};
ghost use Rattle.std.specs.Borrow.{sem};
ghost use Rattle.flat_memory.specs.Zeros.{zeros};
ghost use Rattle.flat_memory.specs.Lent.{LendsGuest, LendsRealTime};

use outside_io::NoMemory;
use std::alloc::Global;
use std::marker::Model;

/// One memory of two parts: the guest's bytes, and behind them the bytes of the real-time side. It is seen as both.
#[derive(Drop)]
pub struct FlatMemory {
    bytes: Vec<u8>,
    guest_size: usize,
}

impl Model for FlatMemory {
    ghost use Rattle.std.specs.Prelude.{◌≤◌, length, take, drop};
    ghost use Rattle.flat_memory.specs.Parts.{Parts};

    ghost Value = { Parts };

    ghost view = { λ m. record { guest = take m.guest_size m.bytes.items; real_time = drop m.guest_size m.bytes.items } };

    ghost invariant = { λ m. m.guest_size ≤ length m.bytes.items };
}

impl FlatMemory {
    /// A memory of zeros, with `guest_size` bytes for the guest and `real_time_size` for the real-time side.
    #[tactic(auto, unfolding(crate::specs::Zeros::zeros))]
    pub fn new(alloc: Global, guest_size: u32, real_time_size: u32) -> Result<FlatMemory, NoMemory>
        ensures guest { IfOk result (λ m. m.guest ≡ zeros guest_size) }
        ensures real_time { IfOk result (λ m. m.real_time ≡ zeros real_time_size) }
        ensures guest_size { IfOk result (λ m. length m.guest ≡ guest_size) }
        ensures real_time_size { IfOk result (λ m. length m.real_time ≡ real_time_size) }
    {
        let guest_size = guest_size as usize;
        match vec![in alloc; 0u8; guest_size + real_time_size as usize] {
            Ok(bytes) => Ok(FlatMemory { bytes, guest_size }),
            Err(_) => Err(NoMemory),
        }
    }

    /// The guest's bytes, for reading.
    pub fn guest_bytes(&self) -> &[u8]
        ensures { result.now ≡ self.now.guest }
    {
        &self.bytes[..self.guest_size]
    }

    /// The bytes of the real-time side, for reading.
    pub fn real_time_bytes(&self) -> &[u8]
        ensures { result.now ≡ self.now.real_time }
    {
        &self.bytes[self.guest_size..]
    }

    /// Lends the guest's bytes for writing. The real-time side stays as it is.
    pub fn guest(&mut self) -> &mut [u8]
        ensures* writes_back { sem 𝓛 (LendsGuest self.entry result) }
        ensures lent { result.now ≡ self.old.guest }
    {
        let size = self.guest_size;
        self.bytes.slice_mut(..size)
    }

    /// Lends the bytes of the real-time side for writing. The guest's bytes stay as they are.
    pub fn real_time(&mut self) -> &mut [u8]
        ensures* writes_back { sem 𝓛 (LendsRealTime self.entry result) }
        ensures lent { result.now ≡ self.old.real_time }
    {
        let size = self.guest_size;
        self.bytes.slice_mut(size..)
    }
}
