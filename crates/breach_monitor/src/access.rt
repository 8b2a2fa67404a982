// Loads and stores of operands by their width.
ghost use Rattle.std.specs.Prelude.{◌≡◌};
ghost use Rattle.memory_model.specs.Side.{inside, loaded, stored_inside};
ghost use Rattle.cpu_state.specs.Width.{size};
ghost use Rattle.flat_memory.specs.Side.{side_at};

use cpu_state::Width;
use flat_memory::{
    load_byte, load_doubleword, load_word, store_byte, store_doubleword, store_word,
};

// The operand at an address, if it is all on the side.
pub(crate) fn load(first: u32, bytes: &[u8], at: u32, width: Width) -> Option<u32>
    ensures { result ≡ loaded (side_at first bytes.now) at (size width) }
{
    match width {
        Width::W8 => load_byte(first, bytes, at),
        Width::W16 => load_word(first, bytes, at),
        Width::W32 => load_doubleword(first, bytes, at),
    }
}

// Stores the low bytes of a value, if they are all on the side.
pub(crate) fn store(first: u32, bytes: &mut [u8], at: u32, width: Width, value: u32) -> bool
    ensures fits { result ≡ inside (side_at first bytes.old) at (size width) }
    ensures after { side_at first bytes.new ≡ stored_inside (side_at first bytes.old) at (size width) value }
{
    match width {
        Width::W8 => store_byte(first, bytes, at, value),
        Width::W16 => store_word(first, bytes, at, value),
        Width::W32 => store_doubleword(first, bytes, at, value),
    }
}
