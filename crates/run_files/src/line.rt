// The line of a refusal.
ghost use Rattle.std.specs.Prelude.{◌≡◌, ◌≤◌, ◌++◌, length};
ghost use Rattle.run_files.specs.Line.{head_of, tail_of, refusal_text};

use crate::cause::Cause;
use line_text::{LineText, add, add_decimal};

/// The line that is written for a refusal, with its end. The name is that of the file, or the word of the ticks.
pub fn refusal_line(cause: Cause, name: &[u8]) -> LineText
    requires { length name.now ≤ 255 }
    ensures { result ≡ refusal_text cause name.now }
{
    let mut line = head(cause);
    add(&mut line, name);
    add_tail(&mut line, cause);
    add(&mut line, b"\n");
    line
}

// What stands before the name.
fn head(cause: Cause) -> LineText
    ensures text { result ≡ head_of cause }
    ensures short { length result ≤ 20 }
{
    match cause {
        Cause::Words => text(b"E usage"),
        Cause::Ticks => text(b"E 40 "),
        Cause::Read => text(b"E read "),
        Cause::TooLarge => text(b"E 12 "),
        Cause::Document => text(b"E 10 "),
        Cause::Field => text(b"E 11 "),
        Cause::Image(rule) => image_head(rule),
        Cause::Outside => text(b"E 21 "),
        Cause::Overlap => text(b"E 22 "),
        Cause::Line(_) => text(b"E 30 "),
    }
}

fn text(bytes: &[u8]) -> LineText
    requires { length bytes.now ≤ 640 }
    ensures { result ≡ bytes.now }
{
    let mut line = LineText::new();
    add(&mut line, bytes);
    line
}

fn image_head(rule: u8) -> LineText
    ensures text { result ≡ head_of (Cause.Image rule) }
    ensures short { length result ≤ 20 }
{
    let mut line = text(b"E 20.");
    add_decimal(&mut line, u32::from(rule));
    add(&mut line, b" ");
    line
}

// What stands behind the name.
fn add_tail(line: &mut LineText, cause: Cause)
    requires { length line.old ≤ 300 }
    ensures text { line.new ≡ line.old ++ tail_of cause }
    ensures short { length (tail_of cause) ≤ 20 }
{
    if let Cause::Line(number) = cause {
        add(line, b" ");
        add_decimal(line, number);
    }
}
