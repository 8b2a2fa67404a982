// Reading a file.
ghost use Rattle.std.specs.Prelude.{◌≡◌, ◌≤◌, ◌<◌, ◌+◌, ◌*◌, length, None, IfOk, All};
ghost use Rattle.elf_loader.specs.Place.{FitsSize};
ghost use Rattle.elf_loader.specs.File.{image_of, headers_from, first_fault, segments_of, segment_of, program_header_fault};
ghost use Rattle.elf_loader.specs.Answers.{AddsSegments, ReadsImage, Tests, MakesSegments};

use crate::header::{
    PROGRAM_HEADER_SIZE, PT_LOAD, ProgramHeader, check_file, check_header, entry, header_of,
    table_count, table_offset,
};
use crate::image::{ElfRefusal, Image, Segment};
use item_list::Items;
use std::alloc::Global;

/// Reads the bytes of an ELF32 file. Each part of type PT_LOAD that has a size in memory is a segment at its virtual
/// address; other parts are ignored, but for an interpreter, which is refused.
pub fn read_image(alloc: Global, bytes: &[u8]) -> Result<Image, ElfRefusal>
    ensures exact { ReadsImage result (image_of bytes.now) }
    ensures fits { IfOk result (λ image. All FitsSize image.segments) }
{
    check_file(bytes)?;
    let table = table_offset(bytes);
    let count = table_count(bytes);
    check_headers(bytes, table, count)?;
    let segments = segments(alloc, bytes, table, count)?;
    Ok(Image {
        entry: entry(bytes),
        segments,
    })
}

// Tests the program headers, and answers by the first bad one.
fn check_headers(bytes: &[u8], table: usize, count: usize) -> Result<(), ElfRefusal>
    requires few { count ≤ 64 }
    requires inside { 0 < count → table + 32 * count ≤ length bytes.now }
    ensures { Tests result (first_fault (length bytes.now) (headers_from table count bytes.now)) }
{
    for index in 0..count {
        let header = header_of(bytes, table + PROGRAM_HEADER_SIZE * index);
        check_header(bytes.len(), &header)?;
    }
    Ok(())
}

// The segments that good program headers name.
fn segments(
    alloc: Global,
    bytes: &[u8],
    table: usize,
    count: usize,
) -> Result<Items<Segment>, ElfRefusal>
    requires few { count ≤ 64 }
    requires inside { 0 < count → table + 32 * count ≤ length bytes.now }
    requires good { first_fault (length bytes.now) (headers_from table count bytes.now) ≡ None }
    ensures { MakesSegments result (segments_of bytes.now (headers_from table count bytes.now)) }
{
    let mut segments = Items::empty(alloc);
    for index in 0..count {
        let header = header_of(bytes, table + PROGRAM_HEADER_SIZE * index);
        add_segment(alloc, &mut segments, bytes, &header)?;
    }
    Ok(segments)
}

// The segment of a header joins those before, where there is one.
#[tactic(auto, unfolding(crate::specs::File::segment_of, crate::specs::File::program_header_fault))]
fn add_segment(
    alloc: Global,
    segments: &mut Items<Segment>,
    bytes: &[u8],
    header: &ProgramHeader,
) -> Result<(), ElfRefusal>
    requires { program_header_fault (length bytes.now) header.now ≡ None }
    ensures { AddsSegments segments.old segments.new result (segment_of bytes.now header.now) }
{
    if header.p_type != PT_LOAD || header.p_memsz < 1 {
        return Ok(());
    }
    let start = header.p_offset as usize;
    let end = start + header.p_filesz as usize;
    let content = match Vec::from_slice(alloc, &bytes[start..end]) {
        Ok(content) => Items::new(content),
        Err(_) => return Err(ElfRefusal::NoMemory),
    };
    let segment = Segment {
        place: header.p_vaddr,
        size: header.p_memsz,
        bytes: content,
    };
    match segments.push(segment) {
        Ok(()) => Ok(()),
        Err(_) => Err(ElfRefusal::NoMemory),
    }
}
