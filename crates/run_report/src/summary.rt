// The three lines that sum a run up.
ghost use Rattle.std.specs.Prelude.{◌≡◌, ◌≤◌, ◌+◌, ◌++◌, length, decimal};
ghost use Rattle.line_text.specs.LineText.{bytes_text};
ghost use Rattle.outside_io.specs.Sink.{Puts};
ghost use Rattle.run_report.specs.Report.{run_line as run_line_of, counts_line as counts_line_of, digest_line as digest_line_of};

use itoa::Buffer;
use line_text::{LineText, add, add_decimal};
use outside_io::{Sink, SinkFault};

// Appends a count that fits: 40 digits at most.
fn add_count(text: &mut LineText, n: u128)
    requires { length text.old + 40 ≤ 640 }
    ensures text { text.new ≡ text.old ++ decimal n }
    ensures short { length (decimal n) ≤ 40 }
{
    let mut buffer = Buffer::new();
    add(text, buffer.format(n).as_bytes());
}

// The line of the run: the number that its system was made of, and its ticks.
fn run_line(number: u32, ticks: u32) -> LineText
    ensures { result ≡ run_line_of number ticks }
{
    let mut text = LineText::new();
    add(&mut text, b"M ");
    add_decimal(&mut text, number);
    add(&mut text, b" ");
    add_decimal(&mut text, ticks);
    add(&mut text, b"\n");
    text
}

// The line of the counts: those of real-time and of guest's lines.
fn counts_line(real_time: u128, guest: u128) -> LineText
    ensures { result ≡ counts_line_of real_time guest }
{
    let mut text = LineText::new();
    add(&mut text, b"M lines ");
    add_count(&mut text, real_time);
    add(&mut text, b" ");
    add_count(&mut text, guest);
    add(&mut text, b"\n");
    text
}

// Appends a digest that fits.
fn add_digest(text: &mut LineText, digest: &[u8; 32])
    requires { length text.old + 512 ≤ 640 }
    ensures text { text.new ≡ text.old ++ bytes_text digest.now }
    ensures short { length (bytes_text digest.now) ≤ 512 }
{
    let _ = text.push_bytes(digest);
}

// The line of the digest.
fn digest_line(digest: &[u8; 32]) -> LineText
    ensures { result ≡ digest_line_of digest.now }
{
    let mut text = LineText::new();
    add(&mut text, b"M digest ");
    add_digest(&mut text, digest);
    add(&mut text, b"\n");
    text
}

// Writes two lines, each with one put.
fn write_pair<K: Sink>(sink: &mut K, first: &LineText, second: &LineText) -> Result<(), SinkFault>
    ensures { Puts (K.written sink.old) (K.written sink.new) (K.faults sink.old) (K.faults sink.new)
        (first.now ++ second.now) result }
{
    match sink.put(first.as_bytes()) {
        Ok(()) => sink.put(second.as_bytes()),
        Err(fault) => Err(fault),
    }
}

/// Writes the three lines, each with one put. A fault ends it.
pub fn write_summary<K: Sink>(
    sink: &mut K,
    number: u32,
    ticks: u32,
    real_time: u128,
    guest: u128,
    digest: &[u8; 32],
) -> Result<(), SinkFault>
    ensures { Puts (K.written sink.old) (K.written sink.new) (K.faults sink.old) (K.faults sink.new)
        (run_line_of number ticks ++ (counts_line_of real_time guest ++ digest_line_of digest.now)) result }
{
    match sink.put(run_line(number, ticks).as_bytes()) {
        Ok(()) => write_pair(sink, &counts_line(real_time, guest), &digest_line(digest)),
        Err(fault) => Err(fault),
    }
}
