// Lines of refusals, and small files.
use crate::parts::SMALL;
use run_files::Cause::{Document, Field, Image, Line, Ticks, Words};
use run_files::{Cause, Refusal, accept_image, accept_script, accept_system, refusal_line};
use std::alloc::Global;
use std::test::Fail;

/// A cause, the name of the file or the text of the ticks, and the line.
static LINES: [(Cause, &str, &str); 5] = [
    (Words, "", "E usage\n"),
    (Ticks, "1000000001", "E 40 1000000001\n"),
    (Field, "s.toml", "E 11 s.toml\n"),
    (Image(1), "m.elf", "E 20.1 m.elf\n"),
    (Line(12), "d.txt", "E 30 d.txt 12\n"),
];

#[test]
fn lines_of_refusals(rt: HostRuntime) {
    for (cause, name, wanted) in &LINES {
        let line = refusal_line(*cause, name.as_bytes());
        assert_eq!(rt; line.as_bytes(), wanted.as_bytes());
    }
}

const SYSTEM: &str =
    "version = 1\nimage = 'k.bin'\nguest_memory = 65536\nreal_time_memory = 69632\n";

/// The cause of a refusal that is about this name.
pub fn cause_of(refusal: Option<Refusal>, name: &[u8]) -> Option<Cause> {
    match refusal {
        Some(Refusal::Because(cause, subject)) if subject.as_slice() == name => Some(cause),
        _ => None,
    }
}

// Why a system file isn't taken that has one more line.
fn system_refusal(alloc: Global, line: &str) -> Result<Option<Cause>, Fail> {
    let mut text = String::from_str(alloc, SYSTEM)?;
    text.push_str(line)?;
    let refusal = accept_system(alloc, b"s.toml", text.as_bytes()).err();
    Ok(cause_of(refusal, b"s.toml"))
}

#[test]
fn systems_by_their_fields(rt: HostRuntime) -> Result<(), Fail> {
    let alloc = rt.alloc();
    assert_eq!(rt; system_refusal(alloc, "modules = ['m.elf']")?, None);
    assert_eq!(rt; system_refusal(alloc, "modules = 'm.elf'")?, Some(Field));
    assert_eq!(rt; system_refusal(alloc, "version =")?, Some(Document));
    Ok(())
}

#[test]
fn an_image_beside_the_stub(rt: HostRuntime) -> Result<(), Fail> {
    let alloc = rt.alloc();
    let system = accept_system(alloc, b"s.toml", SYSTEM.as_bytes())
        .ok()
        .ok_or("no system")?;
    let sides = accept_image(alloc, b"k.bin", &system, &SMALL)
        .ok()
        .ok_or("no image")?;
    assert_eq!(rt; sides.entry, 0x1234);
    assert_eq!(rt; sides.memory.guest_bytes().len(), 65_536);
    assert_eq!(rt; sides.memory.real_time_bytes().len(), 69_632);
    assert_eq!(rt; sides.memory.real_time_bytes()[1], 0xF9);
    let short = accept_image(alloc, b"k.bin", &system, &SMALL[..51]).err();
    assert_eq!(rt; cause_of(short, b"k.bin"), Some(Image(1)));
    Ok(())
}

#[test]
fn a_script_is_refused_by_its_first_bad_line(rt: HostRuntime) {
    let alloc = rt.alloc();
    assert!(rt; accept_script(alloc, b"d.txt", b"# nothing\n").is_ok());
    let bad = accept_script(alloc, b"d.txt", b"3 line 5\n5 line 4").err();
    assert_eq!(rt; cause_of(bad, b"d.txt"), Some(Line(2)));
}
