// Tables of rows, each a line of a text.

use crate::{arithmetic, spellings, units};
use std::alloc::Global;
use std::process::Abort;

/// What the rows of a table are about.
#[derive(Clone, Copy)]
pub enum Kind {
    Arithmetic,
    Spelling,
    Unit,
    Program,
}

/// The numbers of a text, in hexadecimal and parted by spaces; those that it lacks are 0.
pub fn numbers(text: &str) -> Option<[u32; 13]> {
    let mut found = [0; 13];
    for (place, word) in found.iter_mut().zip(text.split(' ')) {
        *place = u32::from_str_radix(word, 16).ok()?;
    }
    Some(found)
}

// Whether the crates do what a row says.
fn agrees(kind: Kind, alloc: Global, row: &str) -> bool {
    let found = match kind {
        Kind::Arithmetic => arithmetic::agrees(row),
        Kind::Spelling => spellings::agrees(alloc, row),
        Kind::Unit => units::agrees(alloc, row),
        Kind::Program => units::comes_to(alloc, row),
    };
    found == Some(true)
}

/// Checks that a table has so many rows, and that the crates do what each says. A line behind # is a remark.
pub fn check(rt: &impl Abort, alloc: Global, kind: Kind, table: &str, count: u32) {
    let mut rows = 0u32;
    for line in table.lines() {
        if !line.starts_with('#') {
            assert!(*rt; agrees(kind, alloc, line), "{line}");
            rows = rows.wrapping_add(1);
        }
    }
    assert!(*rt; rows == count);
}
