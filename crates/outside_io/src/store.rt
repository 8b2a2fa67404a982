// A store.
ghost use Rattle.std.specs.Prelude.{◌≡◌, ◌≤◌, ℕ, List, length, Option};
ghost use Rattle.outside_io.specs.Store.{Files, TellsHeld, FetchCause};

use item_list::Items;
use std::alloc::Global;

/// What a fetch got.
#[derive(Drop)]
pub enum Fetched {
    /// All that the name holds.
    Bytes(Items<u8>),
    /// The name holds more bytes than the limit.
    Larger,
}

/// Why a fetch got nothing.
#[derive(Clone, Copy, Debug, PartialEq, Eq)]
pub enum StoreFault {
    /// The name holds nothing, or what is outside failed.
    Failed,
    /// Memory was refused.
    NoMemory,
}

/// A store of named files. Its meanings: what each name holds, which it may leave untold; a count of faults that never
/// falls, up to the greatest `u64`; and the name that failed last.
pub trait Store {
    /// What each name holds, where the store tells.
    ghost held: { Self → Option Files };

    /// How often a fetch has failed.
    ghost faults: { Self → ℕ };

    /// The name that failed last, and nothing at first.
    ghost failed_last: { Self → List ℕ };

    /// The bytes that a name of 1 to 255 bytes holds, where they are no more than `limit`. `Failed` comes only where the
    /// count of faults rose, and then this name is the one that failed last; no other answer changes either. A name that
    /// holds nothing is never answered `Ok`, and what is held stays.
    fn fetch(&mut self, alloc: Global, name: &str, limit: u32) -> Result<Fetched, StoreFault>
        requires some { 1 ≤ length name.now }
        requires short { length name.now ≤ 255 }
        ensures told { TellsHeld (held self.old) name.now limit result }
        ensures stays { held self.new ≡ held self.old }
        ensures cause { FetchCause (faults self.old) (faults self.new) (failed_last self.old) (failed_last self.new) name.now result };
}
