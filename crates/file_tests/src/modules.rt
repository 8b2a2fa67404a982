// Modules beside a small image, with sides of 65,536 bytes: the real-time side is from 10000h to 1FFFFh, and its first 16 bytes
// and those from 1F000h on are reserved.
ghost use Rattle.std.specs.Prelude.{IfOk};
ghost use Rattle.run_request.specs.Open.{IsReady};

use crate::files::cause_of;
use crate::parts::{SMALL, file_at};
use outside_io::{MemoryStore, Store};
use run_files::Cause::{Field, Image, Outside, Overlap, Read};
use run_files::{AcceptedRun, Cause, Refusal, Shown};
use run_request::open_run;
use std::alloc::Global;
use std::test::Fail;

// A store of a system with these modules, of its image, and of these files. It fails at the fetches of these numbers.
fn store_of(
    alloc: Global,
    modules: &str,
    held: &[(&str, &[u8])],
    failing: &[u32],
) -> Result<MemoryStore, Fail> {
    let system = format!(in alloc;
        "version = 1\nimage = 'k.bin'\nguest_memory = 65536\nreal_time_memory = 65536\nmodules = [{modules}]\n"
    )?;
    let mut files = Vec::new(alloc);
    files.push((
        String::from_str(alloc, "s.toml")?,
        system.as_bytes().to_vec(alloc)?,
    ))?;
    files.push((String::from_str(alloc, "k.bin")?, SMALL.to_vec(alloc)?))?;
    for (name, content) in held {
        files.push((String::from_str(alloc, *name)?, content.to_vec(alloc)?))?;
    }
    Ok(MemoryStore::new(files, failing.to_vec(alloc)?))
}

fn opened(alloc: Global, store: &mut MemoryStore) -> Result<AcceptedRun, Refusal>
    ensures { IfOk result IsReady }
{
    open_run(alloc, store, "s.toml", 10, Shown::Both)
}

// The run of a system with these modules.
fn run_of(alloc: Global, modules: &str, held: &[(&str, &[u8])]) -> Result<AcceptedRun, Fail>
    ensures { IfOk result IsReady }
{
    let mut store = store_of(alloc, modules, held, &[])?;
    Ok(opened(alloc, &mut store).ok().ok_or("no run")?)
}

// Why a system with these modules isn't run, where the refusal is about this name.
fn refusal(
    alloc: Global,
    modules: &str,
    held: &[(&str, &[u8])],
    name: &str,
) -> Result<Option<Cause>, Fail> {
    let mut store = store_of(alloc, modules, held, &[])?;
    Ok(cause_of(opened(alloc, &mut store).err(), name.as_bytes()))
}

#[test]
fn no_module_is_no_init(rt: HostRuntime) -> Result<(), Fail> {
    let run = run_of(rt.alloc(), "", &[])?;
    assert_eq!(rt; run.inits.len(), 0);
    assert_eq!(rt;
        &run.sides.memory.real_time_bytes()[..3],
        b"\xCD\xF9\x00".as_slice()
    );
    Ok(())
}

#[test]
fn modules_stand_on_the_real_time_side(rt: HostRuntime) -> Result<(), Fail> {
    let alloc = rt.alloc();
    let first = file_at(0x1_1001, 0x1_1000, 3);
    let one = run_of(alloc, "'m.elf'", &[("m.elf", &first)])?;
    assert_eq!(rt; one.inits.as_slice(), [0x1_1001].as_slice());
    let real_time = one.sides.memory.real_time_bytes();
    assert_eq!(rt; &real_time[..3], b"\xCD\xF9\x00".as_slice());
    assert_eq!(rt;
        &real_time[0xFFF..0x1004],
        b"\x00\xEB\xFE\x00\x00".as_slice()
    );
    let second = file_at(0x1_0010, 0x1_0010, 2);
    let two = run_of(
        alloc,
        "'m.elf', 'n.elf'",
        &[("n.elf", &second), ("m.elf", &first)],
    )?;
    assert_eq!(rt; two.inits.as_slice(), [0x1_1001, 0x1_0010].as_slice());
    let real_time = two.sides.memory.real_time_bytes();
    assert_eq!(rt; &real_time[0xF..0x13], b"\x00\xEB\xFE\x00".as_slice());
    assert_eq!(rt;
        &real_time[0xFFF..0x1004],
        b"\x00\xEB\xFE\x00\x00".as_slice()
    );
    assert_eq!(rt; two.sides.memory.guest_bytes()[0x1000], 0);
    Ok(())
}

/// Addresses of two modules of two bytes, the refusal with its name, and why.
static PAIRS: [(u32, u32, Option<(Cause, &str)>, &str); 9] = [
    (0x1_1000, 0x1_1002, None, "two that touch"),
    (0x1_0010, 0x1_EFFE, None, "beside the reserved ranges"),
    (
        0x1_1000,
        0x1_1001,
        Some((Overlap, "n.elf")),
        "the last byte of the first",
    ),
    (
        0x1_1001,
        0x1_1000,
        Some((Overlap, "n.elf")),
        "the first byte of the first",
    ),
    (
        0x1_000F,
        0x1_1000,
        Some((Overlap, "m.elf")),
        "the last byte that is reserved for the stub",
    ),
    (
        0x1_1000,
        0x1_EFFF,
        Some((Overlap, "n.elf")),
        "the first byte of the stack",
    ),
    (
        0x1_1000,
        0xFFFF,
        Some((Outside, "n.elf")),
        "the guest's last byte",
    ),
    (
        0x1_FFFF,
        0x1_1000,
        Some((Outside, "m.elf")),
        "one byte behind the side",
    ),
    (
        0x1_FFFF,
        0x1_FFFF,
        Some((Outside, "m.elf")),
        "the first module that is refused",
    ),
];

#[test]
fn modules_at_the_ends(rt: HostRuntime) -> Result<(), Fail> {
    let alloc = rt.alloc();
    for (first, second, wanted, why) in &PAIRS {
        let m = file_at(1, *first, 2);
        let n = file_at(2, *second, 2);
        let held: [(&str, &[u8]); 2] = [("m.elf", &m), ("n.elf", &n)];
        match wanted {
            None => {
                let run = run_of(alloc, "'m.elf', 'n.elf'", &held)?;
                assert_eq!(rt; run.inits.as_slice(), [1, 2].as_slice(), "{why}");
            }
            Some((cause, name)) => {
                assert_eq!(rt;
                    refusal(alloc, "'m.elf', 'n.elf'", &held, *name)?,
                    Some(*cause),
                    "{why}"
                );
            }
        }
    }
    Ok(())
}

/// Seventeen names.
const SEVENTEEN: &str =
    "'m', 'm', 'm', 'm', 'm', 'm', 'm', 'm', 'm', 'm', 'm', 'm', 'm', 'm', 'm', 'm', 'm'";

#[test]
fn files_that_are_no_modules(rt: HostRuntime) -> Result<(), Fail> {
    let alloc = rt.alloc();
    let m = file_at(1, 0x1_1000, 2);
    let short: [(&str, &[u8]); 2] = [("m.elf", &m), ("n.elf", &SMALL[..51])];
    assert_eq!(rt;
        refusal(alloc, "'m.elf', 'n.elf'", &short, "n.elf")?,
        Some(Image(1))
    );
    let missing: [(&str, &[u8]); 1] = [("m.elf", &m)];
    assert_eq!(rt;
        refusal(alloc, "'m.elf', 'n.elf'", &missing, "n.elf")?,
        Some(Read)
    );
    assert_eq!(rt; refusal(alloc, SEVENTEEN, &[], "s.toml")?, Some(Field));
    Ok(())
}

// The fourth fetch would be that of the second module: where none was made, the next one of all is the fourth, and fails.
#[test]
fn nothing_behind_a_refused_module_is_fetched(rt: HostRuntime) -> Result<(), Fail> {
    let alloc = rt.alloc();
    let good = file_at(1, 0x1_1000, 2);
    let bad = file_at(1, 0x1_0000, 2);
    let mut store = store_of(
        alloc,
        "'m.elf', 'n.elf'",
        &[("m.elf", &bad), ("n.elf", &good)],
        &[4],
    )?;
    let refused = opened(alloc, &mut store).err();
    assert_eq!(rt; cause_of(refused, b"m.elf"), Some(Overlap));
    assert!(rt; store.fetch(alloc, "n.elf", 100).is_err());
    let mut store = store_of(
        alloc,
        "'m.elf', 'n.elf'",
        &[("m.elf", &good), ("n.elf", &bad)],
        &[4],
    )?;
    let unread = opened(alloc, &mut store).err();
    assert_eq!(rt; cause_of(unread, b"n.elf"), Some(Read));
    Ok(())
}
