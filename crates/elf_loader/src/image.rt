// What is loaded of a file, and why one isn't taken.

use item_list::Items;

/// A part of an image: its bytes, and zeros behind them up to its size.
#[derive(Drop)]
pub struct Segment {
    /// The address of its first byte.
    pub place: u32,
    /// How many bytes it takes in memory.
    pub size: u32,
    /// The bytes that the file has of it, at most as many as its size.
    pub bytes: Items<u8>,
}

/// What is loaded of a file.
#[derive(Drop)]
pub struct Image {
    /// The address of the first instruction.
    pub entry: u32,
    /// The segments, in the order of the program header table.
    pub segments: Items<Segment>,
}

/// Why a file isn't taken.
#[derive(Clone, Copy, Debug, PartialEq, Eq)]
pub enum ElfRefusal {
    /// The number of the first rule that the file breaks:
    /// 1, it has no file header; 2, the magic number; 3, the class or the encoding; 4, the type; 5, the machine or the
    /// version; 6, the program header table; 7, a loaded part that passes the end of the file; 8, one that is larger in
    /// the file than in memory; 9, an interpreter.
    Bad(u8),
    /// Memory was refused.
    NoMemory,
}
