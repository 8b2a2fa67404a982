// Fields of a file, the lowest byte first.

ghost use Rattle.std.specs.Prelude.{◌≡◌, ◌≤◌, ◌+◌, length};
ghost use Rattle.elf_loader.specs.File.{file_word, file_half};

use byteorder::{ByteOrder, LittleEndian};

/// The four bytes from a place: `Elf32_Word`, `Elf32_Addr` or `Elf32_Off`.
#[tactic(auto, unfolding(crate::specs::File::file_word))]
pub fn word(bytes: &[u8], at: usize) -> u32
    requires { at + 4 ≤ length bytes.now }
    ensures { result ≡ file_word at bytes.now }
{
    LittleEndian::read_u32(&bytes[at..])
}

/// The two bytes from a place: `Elf32_Half`.
#[tactic(auto, unfolding(crate::specs::File::file_half))]
pub fn half(bytes: &[u8], at: usize) -> u16
    requires { at + 2 ≤ length bytes.now }
    ensures { result ≡ file_half at bytes.now }
{
    LittleEndian::read_u16(&bytes[at..])
}
