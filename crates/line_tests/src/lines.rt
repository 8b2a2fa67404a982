// Texts of lines, from the table of lines.
use line_text::LineText;
use std::test::Fail;
use trace_lines::{
    GLine, HLine, Line, Lines, RLine, Said, Who, read_line, write_g, write_h, write_r,
};

fn is_written(tick: u32, line: Line, text: &[u8]) -> bool {
    let mut out = LineText::new();
    let fits = match line {
        Line::R(line) => write_r(tick, &line, &mut out),
        Line::G(line) => write_g(tick, &line, &mut out),
        Line::H(line) => write_h(tick, &line, &mut out),
    };
    fits && out.as_bytes() == text
}

/// The text of a line at tick 3, and the line that it says, as `Debug` shows it.
static LINES: [(&str, &str); 8] = [
    (
        "R 3 gate 23 00000001 0000ffff 80000000 deadbeef -22",
        "R(Gate(23, [1, 65535, 2147483648, 3735928559], -22))",
    ),
    ("R 3 on irq 15", "R(On(Irq(15)))"),
    (
        "R 3 fault thread 3 privileged",
        "R(Fault(Thread(3), Privileged))",
    ),
    ("R 3 end 2 1", "R(End(2, 1))"),
    ("G 3 com1 0a", "G(Com1(10))"),
    (
        "G 3 end halted 00000002 00000002 00000004 00000000 00000000 00000000 00010000 00000000 00000000 ffffffff",
        "G(End(Halted, [2, 2, 4, 0, 0, 0, 65536, 0, 0, 4294967295]))",
    ),
    ("G 3 breach port 02f8", "G(Breach(Port(760)))"),
    ("H 3 set 4294967295", "H(Set(4294967295))"),
];

#[test]
fn a_text_is_read_as_its_line_and_written_again(rt: HostRuntime) -> Result<(), Fail> {
    for (text, wanted) in &LINES {
        let (tick, line) = read_line(text.as_bytes()).ok_or("no line")?;
        assert_eq!(rt; tick, 3);
        let shown = format!(in rt.alloc(); "{line:?}")?;
        assert_eq!(rt; shown.as_str(), *wanted);
        assert!(rt; is_written(tick, line, text.as_bytes()));
    }
    Ok(())
}

#[test]
fn a_reply_shows_its_value_and_its_bytes(rt: HostRuntime) {
    let none = Line::R(RLine::Reply(i32::MIN, Said::new(b"")));
    assert!(rt; is_written(3, none, b"R 3 reply -2147483648 -"));
    let some = Line::R(RLine::Reply(1, Said::new(b"Hi\n")));
    assert!(rt; is_written(3, some, b"R 3 reply 1 48690a"));
}

/// Texts of no line.
const NO_LINES: &str = "R 01 ret
R 4294967296 ret
R 1 ret\x20
G 1 ret
R 1 com2 4A
R 1 reply -0 -
G 1 breach port 2f8
";

#[test]
fn no_other_text_is_a_line(rt: HostRuntime) {
    for text in NO_LINES.lines() {
        assert!(rt; read_line(text.as_bytes()).is_none(), "{text}");
    }
}

#[test]
fn a_line_has_up_to_256_bytes(rt: HostRuntime) {
    let mut text = LineText::new();
    assert!(rt; text.push_text(b"G 4294967295 put 4294967295 "));
    assert!(rt; text.push_bytes(&[0xa5; 256]));
    let longest = Line::G(GLine::Put(u32::MAX, Said::new(&[0xa5; 256])));
    assert!(rt; is_written(u32::MAX, longest, text.as_bytes()));
    assert!(rt; read_line(text.as_bytes()).is_some());
    assert!(rt; text.push_bytes(&[0xa5; 1]));
    assert!(rt; read_line(text.as_bytes()).is_none());
}

#[test]
fn a_pushed_line_stays_until_the_lines_are_cleared(rt: HostRuntime) -> Result<(), Fail> {
    let mut lines = Lines::new(rt.alloc()).ok().ok_or("no memory")?;
    lines.push_r(RLine::On(Who::Guest));
    lines.push_g(GLine::Halt);
    lines.push_h(HLine::Edge(4));
    assert_eq!(rt;
        (lines.r().len(), lines.g().len(), lines.h().len()),
        (1, 1, 1)
    );
    lines.clear();
    assert_eq!(rt;
        (lines.r().len(), lines.g().len(), lines.h().len()),
        (0, 0, 0)
    );
    Ok(())
}
