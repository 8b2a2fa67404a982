// The file header and the program headers.
ghost use Rattle.std.specs.Prelude.{◌≡◌, ◌≤◌, ◌+◌, ◌*◌, length, true, OnOk};
ghost use Rattle.elf_loader.specs.File.{header_at, e_entry, e_phoff, e_phnum, header_fault, has_magic as magic_test, has_good_table as table_test, program_header_fault};
ghost use Rattle.elf_loader.specs.Answers.{HasTable, Tests};

use crate::field::{half, word};
use crate::image::ElfRefusal;

/// The size of the file header.
const FILE_HEADER_SIZE: usize = 52;
/// The size of a program header.
pub const PROGRAM_HEADER_SIZE: usize = 32;

/// `EI_MAG0` to `EI_MAG3`: what each file begins with.
const MAGIC: [u8; 4] = [0x7F, b'E', b'L', b'F'];
/// The place of the class in the file header, and the class of 32 bits.
const EI_CLASS: usize = 4;

const ELFCLASS32: u8 = 1;
/// The place of the encoding, and the one with the lowest byte first.
const EI_DATA: usize = 5;

const ELFDATA2LSB: u8 = 1;
/// The place of the type, and the type of an executable file.
const E_TYPE: usize = 16;

const ET_EXEC: u16 = 2;
/// The place of the machine, and the Intel 80386.
const E_MACHINE: usize = 18;

const EM_386: u16 = 3;
/// The place of the version, and the only one.
const E_VERSION: usize = 20;

const EV_CURRENT: u32 = 1;
/// The place of the entry's address.
const E_ENTRY: usize = 24;
/// The places of the program header table's offset, of the size of a program header, and of their number.
const E_PHOFF: usize = 28;

const E_PHENTSIZE: usize = 42;

const E_PHNUM: usize = 44;

/// How many program headers are read.
const MOST_PROGRAM_HEADERS: u16 = 64;

/// The type of a part that is loaded.
pub const PT_LOAD: u32 = 1;
/// The type of the part that names an interpreter.
const PT_INTERP: u32 = 3;

/// The places of a program header's fields.
const P_TYPE: usize = 0;

const P_OFFSET: usize = 4;

const P_VADDR: usize = 8;

const P_FILESZ: usize = 16;

const P_MEMSZ: usize = 20;

/// The fields of a program header that are read, by the names of the ELF specification.
#[derive(Clone, Copy)]
pub struct ProgramHeader {
    pub p_type: u32,
    pub p_offset: u32,
    pub p_vaddr: u32,
    pub p_filesz: u32,
    pub p_memsz: u32,
}

/// The program header at a place.
#[tactic(auto, unfolding(crate::specs::File::header_at))]
pub fn header_of(bytes: &[u8], at: usize) -> ProgramHeader
    requires { at + 32 ≤ length bytes.now }
    ensures { result ≡ header_at at bytes.now }
{
    ProgramHeader {
        p_type: word(bytes, at + P_TYPE),
        p_offset: word(bytes, at + P_OFFSET),
        p_vaddr: word(bytes, at + P_VADDR),
        p_filesz: word(bytes, at + P_FILESZ),
        p_memsz: word(bytes, at + P_MEMSZ),
    }
}

/// The address of the first instruction.
pub fn entry(bytes: &[u8]) -> u32
    requires { 52 ≤ length bytes.now }
    ensures { result ≡ e_entry bytes.now }
{
    word(bytes, E_ENTRY)
}

/// Where the program header table stands in the file.
pub fn table_offset(bytes: &[u8]) -> usize
    requires { 52 ≤ length bytes.now }
    ensures { result ≡ e_phoff bytes.now }
{
    word(bytes, E_PHOFF) as usize
}

/// How many program headers there are.
pub fn table_count(bytes: &[u8]) -> usize
    requires { 52 ≤ length bytes.now }
    ensures { result ≡ e_phnum bytes.now }
{
    half(bytes, E_PHNUM) as usize
}

/// Tests the file header: the rules 1 to 6.
#[tactic(auto, unfolding(crate::specs::File::header_fault))]
pub fn check_file(bytes: &[u8]) -> Result<(), ElfRefusal>
    ensures tests { Tests result (header_fault bytes.now) }
    ensures table { OnOk result (HasTable bytes.now) }
{
    if bytes.len() < FILE_HEADER_SIZE {
        return Err(ElfRefusal::Bad(1));
    }
    if !has_magic(bytes) {
        return Err(ElfRefusal::Bad(2));
    }
    if !(bytes[EI_CLASS] == ELFCLASS32 && bytes[EI_DATA] == ELFDATA2LSB) {
        return Err(ElfRefusal::Bad(3));
    }
    if half(bytes, E_TYPE) != ET_EXEC {
        return Err(ElfRefusal::Bad(4));
    }
    if !(half(bytes, E_MACHINE) == EM_386 && word(bytes, E_VERSION) == EV_CURRENT) {
        return Err(ElfRefusal::Bad(5));
    }
    if !has_good_table(bytes) {
        return Err(ElfRefusal::Bad(6));
    }
    Ok(())
}

#[tactic(auto, unfolding(crate::specs::File::has_magic))]
fn has_magic(bytes: &[u8]) -> bool
    requires { 52 ≤ length bytes.now }
    ensures { result ≡ magic_test bytes.now }
{
    bytes[0] == MAGIC[0] && bytes[1] == MAGIC[1] && bytes[2] == MAGIC[2] && bytes[3] == MAGIC[3]
}

#[tactic(auto, unfolding(crate::specs::File::has_good_table))]
fn has_good_table(bytes: &[u8]) -> bool
    requires { 52 ≤ length bytes.now }
    ensures { result ≡ table_test bytes.now }
{
    let count = half(bytes, E_PHNUM);
    if count > MOST_PROGRAM_HEADERS {
        return false;
    }
    if count == 0 {
        return true;
    }
    let end = u64::from(word(bytes, E_PHOFF)) + PROGRAM_HEADER_SIZE as u64 * u64::from(count);
    usize::from(half(bytes, E_PHENTSIZE)) == PROGRAM_HEADER_SIZE && end <= bytes.len() as u64
}

/// Tests a program header, in a file of this length: the rules 7 to 9.
#[tactic(auto, unfolding(crate::specs::File::program_header_fault))]
pub fn check_header(len: usize, header: &ProgramHeader) -> Result<(), ElfRefusal>
    ensures { Tests result (program_header_fault len header.now) }
{
    let end = u64::from(header.p_offset) + u64::from(header.p_filesz);
    if header.p_type == PT_LOAD && (len as u64) < end {
        return Err(ElfRefusal::Bad(7));
    }
    if header.p_type == PT_LOAD && header.p_memsz < header.p_filesz {
        return Err(ElfRefusal::Bad(8));
    }
    if header.p_type == PT_INTERP {
        return Err(ElfRefusal::Bad(9));
    }
    Ok(())
}
