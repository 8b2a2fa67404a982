// The forms of the table are GNU objdump's, by tests/objdump_forms.py; what is short or spells nothing is by the opcode map of
// the Intel 80386 manual (appendix A), its groups of opcodes left out, and its limit of 15 bytes (section 9.8.13).
mod forms;

use crate::rows::{Kind, check};
use forms::FORMS;
use i386_decode::{Extent, Form, decode};
use std::alloc::Global;

// What these bytes begin with, as a row says it.
fn answer(alloc: Global, bytes: &[u8]) -> Option<String> {
    let mut form = Form::new();
    match decode(bytes, &mut form) {
        Extent::Whole(size) => format!(in alloc;
            "{size} {:?} {:?} {:?} {:?} {:?} {:?}",
            form.op, form.width, form.first, form.second, form.third, form.repeat
        )
        .ok(),
        Extent::Undefined => String::from_str(alloc, "Undefined").ok(),
        Extent::Short => String::from_str(alloc, "Short").ok(),
    }
}

/// Whether bytes begin with what a row says, which has the bytes first; `None` where it isn't a row.
pub fn agrees(alloc: Global, row: &str) -> Option<bool> {
    let (digits, due) = row.split_once(' ')?;
    let bytes = hex::decode(alloc, digits).ok()?;
    let found = answer(alloc, &bytes)?;
    Some(found.as_str() == due)
}

// What another disassembler says of each string of the table.
#[test]
fn agrees_with_objdump(rt: HostRuntime) {
    check(&rt, rt.alloc(), Kind::Spelling, FORMS, 417);
}

// The bytes of an instruction from which the last ones are missing begin a spelling; so do no bytes, and 14 prefixes.
#[test]
fn asks_for_more_bytes(rt: HostRuntime) {
    let short = "\
0f Short
 Short
6681c034 Short
8b Short
8b04 Short
8b0425000000 Short
f6 Short
2e2e2e2e2e2e2e2e2e2e2e2e2e2e Short
";
    check(&rt, rt.alloc(), Kind::Spelling, short, 8);
}

// Opcodes that the 80386 lacks or that are left out, prefix 67, prefix 66 before a near branch, LEA of a register, and more
// than 15 bytes: they are refused as soon as nothing that may follow mends them.
#[test]
fn refuses_what_spells_nothing(rt: HostRuntime) {
    let undefined = "\
0f0b Undefined
6790 Undefined
8dc0 Undefined
82 Undefined
c0f0 Undefined
f608 Undefined
ff18 Undefined
66ffd0 Undefined
6674 Undefined
66e8 Undefined
66c9 Undefined
2e2e2e2e2e2e2e2e2e2e2e2e2e2e2e Undefined
2e2e2e2e2e2e2e2e2e2e2e2e2e0f Undefined
2e2e2e2e2e2e2e2e2e2e2e2e2e2eb8 Undefined
";
    check(&rt, rt.alloc(), Kind::Spelling, undefined, 14);
}

// NOP is XCHG of EAX with itself; what follows an instruction doesn't count.
#[test]
fn reads_one_instruction(rt: HostRuntime) {
    let nops = "\
90 1 Xchg W32 Register(0) Register(0) Absent Once
900f0b 1 Xchg W32 Register(0) Register(0) Absent Once
";
    check(&rt, rt.alloc(), Kind::Spelling, nops, 2);
}
