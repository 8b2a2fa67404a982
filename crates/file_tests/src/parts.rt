// Small files with the entry 1234h, and the images that they give.
ghost use Rattle.std.specs.Prelude.{IfSome, All};
ghost use Rattle.elf_loader.specs.Place.{FitsSize};

use elf_loader::{Image, read_image};
use std::alloc::Global;

/// A file header, a program header of type PT_LOAD for two bytes at address 0, and the two bytes, a jump to itself.
pub static SMALL: [u8; 86] = [
    0x7F, b'E', b'L', b'F', 1, 1, 1, 0, 0, 0, 0, 0, 0, 0, 0, 0, // e_ident
    2, 0, 3, 0, 1, 0, 0, 0, // e_type, e_machine, e_version
    0x34, 0x12, 0, 0, 52, 0, 0, 0, 0, 0, 0, 0, // e_entry, e_phoff, e_shoff
    0, 0, 0, 0, 52, 0, 32, 0, 1, 0, // e_flags, e_ehsize, e_phentsize, e_phnum
    40, 0, 0, 0, 0, 0, // e_shentsize, e_shnum, e_shstrndx
    1, 0, 0, 0, 84, 0, 0, 0, 0, 0, 0, 0, 0, 0, 0, 0, // p_type, p_offset, p_vaddr, p_paddr
    2, 0, 0, 0, 2, 0, 0, 0, 7, 0, 0, 0, 0, 0, 0, 0, // p_filesz, p_memsz, p_flags, p_align
    0xEB, 0xFE,
];

/// The same with two program headers, each of which loads the two bytes.
static TWO: [u8; 118] = [
    0x7F, b'E', b'L', b'F', 1, 1, 1, 0, 0, 0, 0, 0, 0, 0, 0, 0, // e_ident
    2, 0, 3, 0, 1, 0, 0, 0, // e_type, e_machine, e_version
    0x34, 0x12, 0, 0, 52, 0, 0, 0, 0, 0, 0, 0, // e_entry, e_phoff, e_shoff
    0, 0, 0, 0, 52, 0, 32, 0, 2, 0, // e_flags, e_ehsize, e_phentsize, e_phnum
    40, 0, 0, 0, 0, 0, // e_shentsize, e_shnum, e_shstrndx
    1, 0, 0, 0, 116, 0, 0, 0, 0, 0, 0, 0, 0, 0, 0, 0, // p_type, p_offset, p_vaddr, p_paddr
    2, 0, 0, 0, 2, 0, 0, 0, 7, 0, 0, 0, 0, 0, 0, 0, // p_filesz, p_memsz, p_flags, p_align
    1, 0, 0, 0, 116, 0, 0, 0, 0, 0, 0, 0, 0, 0, 0, 0, // the same of the second
    2, 0, 0, 0, 2, 0, 0, 0, 7, 0, 0, 0, 0, 0, 0, 0, //
    0xEB, 0xFE,
];

// Writes the field at this place.
fn set_field(file: &mut [u8], at: usize, value: u32) {
    for (byte, new) in file.iter_mut().skip(at).zip(&value.to_le_bytes()) {
        *byte = *new;
    }
}

/// The first of these files with this entry, address and size in memory.
pub fn file_at(entry: u32, place: u32, size: u32) -> [u8; 86] {
    let mut file = SMALL;
    set_field(&mut file, 24, entry);
    set_field(&mut file, 52 + 8, place);
    set_field(&mut file, 52 + 20, size);
    file
}

pub fn image_in(alloc: Global, file: &[u8]) -> Option<Image>
    ensures { IfSome result (λ image. All FitsSize image.segments) }
{
    match read_image(alloc, file) {
        Ok(image) => Some(image),
        Err(_) => None,
    }
}

/// The image of two parts with these addresses and sizes in memory, each of the two bytes and zeros.
pub fn image_of(alloc: Global, first: (u32, u32), second: (u32, u32)) -> Option<Image>
    ensures { IfSome result (λ image. All FitsSize image.segments) }
{
    let mut file = TWO;
    set_field(&mut file, 52 + 8, first.0);
    set_field(&mut file, 52 + 20, first.1);
    set_field(&mut file, 84 + 8, second.0);
    set_field(&mut file, 84 + 20, second.1);
    image_in(alloc, &file)
}
