// Scripts, and what is read in them. Each expected value is worked by hand from the grammar and the bounds of a script: the
// first lines of `device_script`, and `docs/FORMATS.md`.
use device_script::Event::{Com1, Com2, Line};
use device_script::{ScriptRefusal, read_script};
use std::alloc::Global;
use std::test::Fail;

#[test]
fn a_script_gives_its_events(rt: HostRuntime) -> Result<(), Fail> {
    let text = b"# a\n\n0000000005  line  15\r\n7 com1 A0\n7 line 1\n1000000000 com2 0f";
    let script = read_script(rt.alloc(), text).ok().ok_or("no script")?;
    let wanted = [
        (5, Line(15)),
        (7, Com1(0xA0)),
        (7, Line(1)),
        (1_000_000_000, Com2(0x0F)),
    ];
    assert_eq!(rt; script.events.as_slice(), wanted.as_slice());
    Ok(())
}

// The first bad line of a script that isn't taken.
fn bad_line(alloc: Global, text: &str) -> Option<u32> {
    let bytes = text.as_bytes();
    // no script is longer: it shows the check the bound that `read_script` asks for
    if bytes.len() > 1000 {
        return None;
    }
    match read_script(alloc, bytes) {
        Err(ScriptRefusal::BadLine(line)) => Some(line),
        _ => None,
    }
}

/// Scripts of one line that isn't taken.
const BAD_LINES: &str = "0 line 5
1000000001 line 5
00000000005 line 5
5 line 4
5 line 16
5 line 05
5 com1 4g
5 com3 41
5 line 5 ";

#[test]
fn a_bad_line_is_refused_by_its_number(rt: HostRuntime) {
    let alloc = rt.alloc();
    for line in BAD_LINES.lines() {
        assert_eq!(rt; bad_line(alloc, line), Some(1), "{line}");
    }
    assert_eq!(rt; bad_line(alloc, "2 line 9\n\n# x\n1 line 9\n"), Some(4));
}

const SEVENTEEN: &str =
    "5 line 5\n5 line 5\n5 line 5\n5 line 5\n5 line 5\n5 line 5\n5 line 5\n5 line 5\n5 line 5\n5 line 5\n5 line 5\n5 line 5\n5 line 5\n5 line 5\n5 line 5\n5 line 5\n5 line 5\n";

#[test]
fn a_seventeenth_event_of_a_tick_is_bad(rt: HostRuntime) {
    assert_eq!(rt; bad_line(rt.alloc(), SEVENTEEN), Some(17));
}

// A body that gives up beyond a size would meet every clause, since want of memory is free.
#[test]
fn thousands_of_events_are_taken(rt: HostRuntime) -> Result<(), Fail> {
    let alloc = rt.alloc();
    let mut text = String::new(alloc);
    for tick in 1..=3_000u32 {
        text.push_str(format!(in alloc; "{tick} line 5\n")?.as_str())?;
    }
    let bytes = text.as_bytes();
    if bytes.len() > 100_000 {
        return Err("too long a text".into());
    }
    let script = read_script(alloc, bytes).ok().ok_or("no script")?;
    assert_eq!(rt; script.events.len(), 3_000);
    Ok(())
}
