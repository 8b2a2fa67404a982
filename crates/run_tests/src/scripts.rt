// Scripts. Their answers were worked out from the grammar of the script, apart from this program.
use crate::calls::{bytes_of, field, hex_of};
use crate::systems::{LOOPED, SMALL, SYSTEM, five_ticks_answer};
use std::alloc::Global;
use std::test::Fail;

/// Scripts under which the small image only jumps for 5 ticks.
static RAN: &str = "\
16 | 5 line 5;5 line 5;5 line 5;5 line 5;5 line 5;5 line 5;5 line 5;5 line 5;5 line 5;5 line 5;5 line 5;5 line 5;5 line 5;5 line 5;5 line 5;5 line 5;6 line 5;
comments | # a;#;# b
crlf | 5  line  5\r;
empty | -
ff | 5 com2 Ff
lead0 | 0000000005 line 15;;\r;#x
";

/// Scripts that are refused, with the line that is written.
static REFUSED: &str = "\
17 | 5 line 5;5 line 5;5 line 5;5 line 5;5 line 5;5 line 5;5 line 5;5 line 5;5 line 5;5 line 5;5 line 5;5 line 5;5 line 5;5 line 5;5 line 5;5 line 5;5 line 5; | E 30 d.txt 17;
blank | 5 line 5; ; | E 30 d.txt 2;
case | 5 LINE 5; | E 30 d.txt 1;
com14 | 5 com1 4; | E 30 d.txt 1;
com1g | 5 com1 4g; | E 30 d.txt 1;
com1long | 5 com1 041; | E 30 d.txt 1;
com3 | 5 com3 41; | E 30 d.txt 1;
crcr | 5 line 5\r\r; | E 30 d.txt 1;
crlast | 5 line 5\r | E 30 d.txt 1;
falls | 5 line 5;4 line 5; | E 30 d.txt 2;
four | 5 line 5 6; | E 30 d.txt 1;
lead |  5 line 5; | E 30 d.txt 1;
line0 | 5 line 0; | E 30 d.txt 1;
line05 | 5 line 05; | E 30 d.txt 1;
line16 | 5 line 16; | E 30 d.txt 1;
line2 | 5 line 2; | E 30 d.txt 1;
line3 | # a;;5 line 3; | E 30 d.txt 3;
tab | 5\tline 5; | E 30 d.txt 1;
tick0 | 0 line 5; | E 30 d.txt 1;
tick1000000001 | 1000000001 line 5; | E 30 d.txt 1;
tick11 | 00000000005 line 5; | E 30 d.txt 1;
trail | 5 line 5 ; | E 30 d.txt 1;
two | 5 line; | E 30 d.txt 1;
the line of COM1 | 5 line 4; | E 30 d.txt 1;
";

// Are these the answers to the script of a row?
fn script_answers(alloc: Global, row: &str, status: &str, output: &str) -> Result<bool, Fail> {
    let system = bytes_of(alloc, SYSTEM)?;
    let image = hex_of(alloc, SMALL)?;
    let script = bytes_of(alloc, field(row, 1)?)?;
    let files = [
        ("s.toml", system.as_slice()),
        ("k.bin", image.as_slice()),
        ("d.txt", script.as_slice()),
    ];
    five_ticks_answer(alloc, &files, status, output)
}

#[test]
fn scripts_are_lines_in_order(rt: HostRuntime) -> Result<(), Fail> {
    let alloc = rt.alloc();
    for row in RAN.lines() {
        assert!(rt; script_answers(alloc, row, "done", LOOPED)?, "{row}");
    }
    for row in REFUSED.lines() {
        assert!(rt; script_answers(alloc, row, "30", field(row, 2)?)?, "{row}");
    }
    Ok(())
}
