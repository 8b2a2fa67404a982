// Different guests beside the same modules, script and ticks: their real-time lines are the same.
use crate::calls::{Answer, answer_of, bytes_of, field, hex_of};
use crate::hardware::COUNTS;
use crate::module_files::{image_at, store_of};
use crate::real_time_lines::real_time_lines;
use crate::systems::{HALTS, SMALL};
use rtlinux_top::Status;
use std::alloc::Global;
use std::test::Fail;

/// What the modules do, the script, the modules and the ticks.
static SYSTEMS: &str = "\
equal priorities, and a more urgent one that is released | 3 line 5;4 line 5;30 line 5; | m.elf=11000=b802000000bb85100100b90a000000ba00300100cdf8b806000000bb00000000b93c000000bae8030000cdf8b802000000bb85100100b90a000000ba00400100cdf8b806000000bb01000000b93c000000bae8030000cdf8b802000000bb85100100b914000000ba00500100cdf8b806000000bb02000000b93d000000bae8030000cdf8c340c3 | 69
a due further away than a one-shot reaches | - | m.elf=11000=b802000000bb2f100100b90a000000ba00300100be07000000cdf8b80600000031dbb914000000ba01800000cdf8c3cdf8ebfe | 24
handlers in the order of their lines, each with its line in EAX | 2 line 6;20 line 9;20 line 5;20 line 1;31 line 5; | m.elf=11000=b812000000bb05000000b934100100cdf8b812000000bb09000000b934100100cdf8b812000000bb01000000b934100100cdf8c3cdf8c3 | 48
";

/// Guests as code at address 0: a timer of 3 ticks, a byte over COM1, an undefined instruction that stops the guest, and CLI, which breaks a
/// rule.
static CODE: [&str; 4] = [
    "b803000000bb03000000cdf6ebfe",
    "b04166baf803eeebfe",
    "0f0b",
    "fa",
];

/// Guests whose first unit, or whose second, is a breach: the code at address 0, and what comes of it beside the first system, where
/// the guest is put on in tick 33. The last one shuts down instead.
static BREACHES: [(&str, &str); 16] = [
    ("fa", "G 33 breach cli"),
    ("fb", "G 33 breach sti"),
    ("cf", "G 33 breach iret"),
    ("9c", "G 33 breach pushf"),
    ("9d", "G 33 breach popf"),
    ("f4", "G 33 breach hlt"),
    ("cdf7", "G 33 breach int 247"),
    ("cdff", "G 33 breach int 255"),
    ("e420", "G 33 breach port 0020"),
    ("e640", "G 33 breach port 0040"),
    ("e51f", "G 33 breach port 001f"),
    ("66baf802ec", "G 34 breach port 02f8"),
    ("a100000100", "G 33 breach load 00010000"),
    ("a300000100", "G 33 breach store 00010000"),
    ("e9fbff0000", "G 34 breach fetch 00010000"),
    ("0f0b", "G 33 shutdown 6"),
];

// A row's run with this guest.
fn run_beside(alloc: Global, row: &str, guest: &[u8]) -> Result<Answer, Fail> {
    let script = bytes_of(alloc, field(row, 1)?)?;
    let store = store_of(alloc, "1", field(row, 2)?, guest, script.as_slice())?;
    let words = format!(in alloc; "run s.toml --ticks {}", field(row, 3)?)?;
    let answer = answer_of(alloc, words.as_str(), store, 4000, &[])?;
    if !answer.kept {
        return Err(Fail::from("no run"));
    }
    Ok(answer)
}

// The real-time lines of a row's run with this guest.
fn lines_beside(alloc: Global, row: &str, guest: &[u8]) -> Result<String, Fail> {
    real_time_lines(alloc, run_beside(alloc, row, guest)?.sink.written())
}

// Are the lines beside this guest these ones?
fn are_beside(alloc: Global, row: &str, guest: &[u8], lines: &str) -> Result<bool, Fail> {
    Ok(lines_beside(alloc, row, guest)?.as_str() == lines)
}

#[test]
fn real_time_lines_are_the_same_beside_each_guest(rt: HostRuntime) -> Result<(), Fail> {
    let alloc = rt.alloc();
    for row in SYSTEMS.lines() {
        let lines = lines_beside(alloc, row, hex_of(alloc, SMALL)?.as_slice())?;
        assert!(rt; !lines.is_empty());
        // A timer with entries, and one that halts until line 5.
        for guest in [COUNTS, HALTS] {
            let image = hex_of(alloc, guest)?;
            assert!(rt;
                are_beside(alloc, row, image.as_slice(), lines.as_str())?,
                "{row} {guest}"
            );
        }
        for guest in CODE {
            let image = image_at(alloc, 0, hex_of(alloc, guest)?.as_slice())?;
            assert!(rt;
                are_beside(alloc, row, image.as_slice(), lines.as_str())?,
                "{row} {guest}"
            );
        }
    }
    Ok(())
}

// The first line of the guest.
fn first_of_guest(written: &[u8]) -> Result<&str, Fail> {
    let text = str::from_utf8(written).ok().ok_or("no text")?;
    for line in text.lines() {
        if line.starts_with("G ") {
            return Ok(line);
        }
    }
    Err(Fail::from("no line"))
}

// Is this the first line of such a guest, and are these the real-time lines beside it? The answer is whether it is a breach.
fn breaks_beside(
    alloc: Global,
    row: &str,
    code: &str,
    first: &str,
    lines: &str,
) -> Result<bool, Fail> {
    let image = image_at(alloc, 0, hex_of(alloc, code)?.as_slice())?;
    let answer = run_beside(alloc, row, image.as_slice())?;
    let status = if code == "0f0b" {
        Status::Done
    } else {
        Status::Breach
    };
    let written = answer.sink.written();
    Ok(
        answer.status == status
            && first_of_guest(written)? == first
            && real_time_lines(alloc, written)?.as_str() == lines,
    )
}

#[test]
fn a_breach_leaves_the_real_time_lines_as_they_are(rt: HostRuntime) -> Result<(), Fail> {
    let alloc = rt.alloc();
    let row = SYSTEMS.lines().next().ok_or("no row")?;
    let lines = lines_beside(alloc, row, hex_of(alloc, SMALL)?.as_slice())?;
    assert!(rt; lines.contains("R 33 on guest"), "{lines}");
    for (code, first) in BREACHES {
        assert!(rt;
            breaks_beside(alloc, row, code, first, lines.as_str())?,
            "{code} {first}"
        );
    }
    Ok(())
}
