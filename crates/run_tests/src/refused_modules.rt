// Modules that are refused. Their answers were worked out from the ELF specification and the order of the refusals, apart from this
// program.
use crate::calls::{answer_of, bytes_of, field, has_come, hex_of};
use crate::module_files::{store_of, store_with};
use crate::systems::SMALL;
use outside_io::MemoryStore;
use std::alloc::Global;
use std::test::Fail;

/// What is refused, the script, the modules, the status and the line.
static REFUSED: &str = "\
the second module missing | - | m.elf=11000=f7f0 n.elf | read | E read n.elf;
a header that is cut | - | m.elf==7f454c460101010000000000000000000200030001000000001001003400000000000000000000003400200003000000000000 | 20.1 | E 20.1 m.elf;
a part that ends behind the side | - | m.elf=1fffd=c3c3c3c3 | 21 | E 21 m.elf;
a part on the guest's side | - | m.elf=ffff=c3c3 | 21 | E 21 m.elf;
a part over the stub | - | m.elf=10000=c3 | 22 | E 22 m.elf;
a part over the stack of inits | - | m.elf=1efff=c3c3 | 22 | E 22 m.elf;
a second module over the first one's last byte | - | m.elf=11000=c3c3 n.elf=11001=c3 | 22 | E 22 n.elf;
the first of two that are refused | - | m.elf=10000=c3 n.elf=1ffff=c3c3 | 22 | E 22 m.elf;
an object file | - | m.elf==7f454c4601010100000000000000000001000300010000000000000000000000a600000000000000340000000000280006000000b800000000e8fcffffffc340c30000000000000000000000000000000000000000010000000000000000000000120001000d0000000b00000000000000020001000f00000000000000000000000100020000696e69745f6d6f64756c650066006400010000000103000006000000020200000000000000000000000000000000000000000000000000000000000000000000000000000000000000000000010000000600000000000000340000000d0000000000000000000000100000000000000000000000010000000300000000000000410000000400000000000000000000000400000000000000000000000200000000000000000000004500000040000000040000000100000004000000100000000000000003000000000000000000000085000000110000000000000000000000010000000000000000000000090000000000000000000000960000001000000003000000010000000400000008000000 | 20.4 | E 20.4 m.elf;
a module before its script | 5 line 4; | m.elf=11000=c3 n.elf=1ffff=c3c3 | 21 | E 21 n.elf;
a script behind good modules | 5 line 4; | m.elf=11000=c3 n.elf=11001=c3 | 30 | E 30 d.txt 1;
";

// Is 5 ticks of a store refused with this status and this line?
fn is_refused(alloc: Global, store: MemoryStore, status: &str, line: &str) -> Result<bool, Fail> {
    let answer = answer_of(alloc, "run s.toml --ticks 5", store, 4000, &[])?;
    has_come(alloc, &answer, status, line)
}

// Is the run of a row refused as it says?
fn row_is_refused(alloc: Global, row: &str) -> Result<bool, Fail> {
    let store = store_of(
        alloc,
        "1",
        field(row, 2)?,
        hex_of(alloc, SMALL)?.as_slice(),
        bytes_of(alloc, field(row, 1)?)?.as_slice(),
    )?;
    is_refused(alloc, store, field(row, 3)?, field(row, 4)?)
}

#[test]
fn modules_are_refused_by_their_names(rt: HostRuntime) -> Result<(), Fail> {
    for row in REFUSED.lines() {
        assert!(rt; row_is_refused(rt.alloc(), row)?, "{row}");
    }
    Ok(())
}

#[test]
fn a_module_larger_than_a_file_may_be_is_refused(rt: HostRuntime) -> Result<(), Fail> {
    let alloc = rt.alloc();
    let mut files = Vec::new(alloc);
    files.push((
        String::from_str(alloc, "m.elf")?,
        vec![in alloc; 0u8; 33_554_433]?,
    ))?;
    let image = hex_of(alloc, SMALL)?;
    let store = store_with(alloc, "1", "\"m.elf\"", image.as_slice(), &[], files)?;
    assert!(rt; is_refused(alloc, store, "12", "E 12 m.elf;")?);
    Ok(())
}
