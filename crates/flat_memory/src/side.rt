// One side of the memory.
ghost use Rattle.std.specs.Prelude.{◌≡◌, ◌<◌, ◌+◌, ◌^◌, length};
ghost use Rattle.memory_model.specs.Side.{inside, loaded, stored_inside};

use crate::access;

/// A side of memory over bytes that are lent: the first of them stands at the address `first`.
#[derive(Drop)]
pub struct Side<'a> {
    pub first: u32,
    pub bytes: &'a mut [u8],
}

impl<'a> Side<'a> {
    ghost use Rattle.flat_memory.specs.Side.{side_of};

    /// The side with that first address over these bytes. What is stored through it stands in them.
    pub fn new(first: u32, bytes: &'a mut [u8]) -> Side<'a>
        requires { first + length bytes.old < 2 ^ 32 }
        ensures first { result.first ≡ first }
        ensures bytes { result.bytes.now ≡ bytes.old }
        ensures same_loan { result.bytes.ghost_name ≡ bytes.entry.ghost_name }
    {
        Side { first, bytes }
    }

    /// The address of the first byte.
    pub fn first(&self) -> u32
        ensures { result ≡ (side_of self.now).first }
    {
        self.first
    }

    /// How many bytes there are.
    pub fn size(&self) -> u32
        requires { length (side_of self.now).bytes < 2 ^ 32 }
        ensures { result ≡ length (side_of self.now).bytes }
    {
        self.bytes.len() as u32
    }

    /// The bytes.
    pub fn bytes(&self) -> &[u8]
        ensures { result.now ≡ (side_of self.now).bytes }
    {
        &*self.bytes
    }

    /// The byte at an address; `None` exactly where it is outside.
    pub fn load8(&self, at: u32) -> Option<u32>
        ensures { result ≡ loaded (side_of self.now) at 1 }
    {
        access::load_byte(self.first, &*self.bytes, at)
    }

    /// The little-endian word of two bytes at an address; `None` exactly where one of them is outside.
    pub fn load16(&self, at: u32) -> Option<u32>
        ensures { result ≡ loaded (side_of self.now) at 2 }
    {
        access::load_word(self.first, &*self.bytes, at)
    }

    /// The little-endian word of four bytes at an address; `None` exactly where one of them is outside.
    pub fn load32(&self, at: u32) -> Option<u32>
        ensures { result ≡ loaded (side_of self.now) at 4 }
    {
        access::load_doubleword(self.first, &*self.bytes, at)
    }

    /// Stores the low byte of a value; false exactly where the address is outside, and then nothing changes.
    pub fn store8(&mut self, at: u32, value: u32) -> bool
        ensures fits { result ≡ inside (side_of self.old) at 1 }
        ensures after { side_of self.new ≡ stored_inside (side_of self.old) at 1 value }
        ensures same_loan { self.new.bytes.ghost_name ≡ self.old.bytes.ghost_name }
    {
        access::store_byte(self.first, &mut *self.bytes, at, value)
    }

    /// Stores the low two bytes of a value, the lowest first; false exactly where one of them is outside, and then
    /// nothing changes.
    pub fn store16(&mut self, at: u32, value: u32) -> bool
        ensures fits { result ≡ inside (side_of self.old) at 2 }
        ensures after { side_of self.new ≡ stored_inside (side_of self.old) at 2 value }
        ensures same_loan { self.new.bytes.ghost_name ≡ self.old.bytes.ghost_name }
    {
        access::store_word(self.first, &mut *self.bytes, at, value)
    }

    /// Stores the four bytes of a value, the lowest first; false exactly where one of them is outside, and then nothing
    /// changes.
    pub fn store32(&mut self, at: u32, value: u32) -> bool
        ensures fits { result ≡ inside (side_of self.old) at 4 }
        ensures after { side_of self.new ≡ stored_inside (side_of self.old) at 4 value }
        ensures same_loan { self.new.bytes.ghost_name ≡ self.old.bytes.ghost_name }
    {
        access::store_doubleword(self.first, &mut *self.bytes, at, value)
    }
}
