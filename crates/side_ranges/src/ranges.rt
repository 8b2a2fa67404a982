// Ranges of bytes.
ghost use Rattle.std.specs.Prelude.{◌≡◌, ◌≤◌, ◌<◌, ◌+◌, ◌-◌, ◌++◌, ◌^◌, length, take, drop, replicate, true, None};
ghost use Rattle.memory_model.specs.Side.{bytes_at, covers, first_outside, stored};
ghost use Rattle.flat_memory.specs.Side.{side_at, side_of};

use flat_memory::{Side, fits};

/// The first of `count` bytes from an address on that is outside; `None` exactly where all are on the side. A range of no bytes is.
#[tactic(auto, unfolding(memory_model::specs::Side::first_outside))]
pub fn first_outside_of(side: &Side<'_>, at: u32, count: u32) -> Option<u32>
    requires { (side_of side.now).first + length (side_of side.now).bytes < 2 ^ 32 }
    ensures first { result ≡ first_outside (side_of side.now) at count }
    ensures inside { result ≡ None → covers (side_of side.now) at count ≡ true }
{
    if fits(side.first(), side.bytes(), at, count) {
        return None;
    }
    match side.load8(at) {
        Some(_) => Some(side.first() + side.size()),
        None => Some(at),
    }
}

/// The bytes of a range that is on the side over these bytes, of which the first stands at the address `first`.
pub fn range(first: u32, bytes: &[u8], at: u32, count: u32) -> &[u8]
    requires { covers (side_at first bytes.now) at count ≡ true }
    ensures bytes { result.now ≡ bytes_at (side_at first bytes.now) at count }
    ensures count { length result.now ≡ count }
{
    if count == 0 {
        return &bytes[..0];
    }
    let start = (at - first) as usize;
    &bytes[start..start + count as usize]
}

/// A copy of at most 256 bytes, with zeros behind them.
#[tactic(auto, using(crate::proofs::Zeros::zeros_left))]
pub fn with_zeros(bytes: &[u8]) -> [u8; 256]
    requires { length bytes.now ≤ 256 }
    ensures bytes { take (length bytes.now) result ≡ bytes.now }
    ensures behind { result ≡ bytes.now ++ replicate (256 - length bytes.now) 0 }
{
    let mut all = [0; 256];
    all[..bytes.len()].copy_from_slice(bytes);
    all
}

// Writes bytes over those from a place on.
fn write_over(all: &mut [u8], place: usize, bytes: &[u8])
    requires { place + length bytes.now ≤ length all.old }
    ensures { all.new ≡ take place all.old ++ (bytes.now ++ drop (place + length bytes.now) all.old) }
{
    all[place..place + bytes.len()].copy_from_slice(bytes);
}

/// Stores bytes from an address on, in a range that is on the side.
pub fn store_bytes(side: &mut Side<'_>, at: u32, bytes: &[u8])
    requires { covers (side_of side.old) at (length bytes.now) ≡ true }
    ensures stored { side_of side.new ≡ stored (side_of side.old) at bytes.now }
    ensures same_loan { side.new.bytes.ghost_name ≡ side.old.bytes.ghost_name }
{
    if !bytes.is_empty() {
        let place = (at - side.first) as usize;
        write_over(side.bytes, place, bytes);
    }
}
