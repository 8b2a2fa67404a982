// Parts of images.

ghost use Rattle.std.specs.Prelude.{◌≡◌, ◌<◌, ◌^◌, ◌++◌, ◌∷◌, OnOk, length};
ghost use Rattle.work_maker.specs.Bytes.{word, segment_at};

use elf_loader::Segment;
use item_list::Items;
use std::alloc::AllocError;

/// Adds a byte and four bytes of a number, the lowest first, as in MOV r32, imm32.
pub fn add_word(code: &mut Vec<u8>, opcode: u8, number: u32) -> Result<(), AllocError>
    ensures { OnOk result (code.new.items ≡ code.old.items ++ opcode ∷ word number) }
{
    code.push(opcode)?;
    code.extend_from_slice(&number.to_le_bytes())
}

/// The segment of these bytes from an address on.
pub fn segment(place: u32, bytes: Vec<u8>) -> Segment
    requires { length bytes.items < 2 ^ 32 }
    ensures { result ≡ segment_at place bytes.items }
{
    let size = bytes.len() as u32;
    Segment {
        place,
        size,
        bytes: Items::new(bytes),
    }
}
