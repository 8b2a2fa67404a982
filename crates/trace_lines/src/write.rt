// The texts of lines.
ghost use Rattle.std.specs.Prelude.{◌≡◌, ◌≤◌, [], ◌∷◌, ◌++◌, length, decimal, IsTrue};
ghost use Rattle.std.specs.Fmt.{signed_decimal};
ghost use Rattle.line_text.specs.LineText.{Pushes, bytes_text};
ghost use Rattle.trace_lines.specs.Text.{r_text, r_words, g_text, g_words, h_text, h_words, who_words, fault_word, spaced_words};

use crate::pieces::{
    add_breach, add_byte, add_bytes, add_numbered, add_signed, add_who, add_words, fault_text,
    mode_text,
};
use crate::{FaultKind, GLine, HLine, RLine, Said, Who};
use line_text::{LineText, add, add_decimal};

// The function of a gate, its registers and its result.
fn add_gate(text: &mut LineText, function: u32, registers: &[u32], value: i32)
    requires room { length text.old ≤ 100 }
    requires few { length registers.now ≤ 4 }
    ensures text { text.new ≡ text.old ++ (decimal function ++ (spaced_words registers.now ++ (32 ∷ signed_decimal value))) }
    ensures short { length (decimal function ++ (spaced_words registers.now ++ (32 ∷ signed_decimal value))) ≤ 120 }
{
    add_decimal(text, function);
    add_words(text, registers);
    add(text, b" ");
    add_signed(text, value);
}

// Who faulted, and how.
fn add_fault(text: &mut LineText, who: Who, kind: FaultKind)
    requires { length text.old ≤ 100 }
    ensures text { text.new ≡ text.old ++ (who_words who ++ (32 ∷ fault_word kind)) }
    ensures short { length (who_words who ++ (32 ∷ fault_word kind)) ≤ 40 }
{
    add_who(text, who);
    add(text, b" ");
    add(text, fault_text(kind));
}

// The result of a FIFO call, and its bytes.
fn add_reply(text: &mut LineText, value: i32, said: &Said)
    requires { length text.old ≤ 100 }
    ensures text { text.new ≡ text.old ++ (signed_decimal value ++ (32 ∷ bytes_text said.now)) }
    ensures short { length (signed_decimal value ++ (32 ∷ bytes_text said.now)) ≤ 524 }
{
    add_signed(text, value);
    add(text, b" ");
    add_bytes(text, said.as_bytes());
}

// Two numbers.
fn add_two(text: &mut LineText, first: u32, second: u32)
    requires { length text.old ≤ 100 }
    ensures text { text.new ≡ text.old ++ (decimal first ++ (32 ∷ decimal second)) }
    ensures short { length (decimal first ++ (32 ∷ decimal second)) ≤ 21 }
{
    add_decimal(text, first);
    add(text, b" ");
    add_decimal(text, second);
}

// A FIFO, and bytes.
fn add_put(text: &mut LineText, fifo: u32, said: &Said)
    requires { length text.old ≤ 100 }
    ensures text { text.new ≡ text.old ++ (decimal fifo ++ (32 ∷ bytes_text said.now)) }
    ensures short { length (decimal fifo ++ (32 ∷ bytes_text said.now)) ≤ 523 }
{
    add_decimal(text, fifo);
    add(text, b" ");
    add_bytes(text, said.as_bytes());
}

fn add_r_words(text: &mut LineText, line: &RLine)
    requires { length text.old ≤ 50 }
    ensures text { text.new ≡ text.old ++ r_words line.now }
    ensures short { length (r_words line.now) ≤ 540 }
{
    match line {
        RLine::Com2(byte) => {
            add(text, b"com2 ");
            add_byte(text, *byte);
        }
        RLine::Release(thread) => add_numbered(text, b"release ", *thread),
        RLine::On(who) => {
            add(text, b"on ");
            add_who(text, *who);
        }
        RLine::Gate(function, registers, value) => {
            add(text, b"gate ");
            add_gate(text, *function, registers, *value);
        }
        RLine::Say(said) => {
            add(text, b"say ");
            add_bytes(text, said.as_bytes());
        }
        RLine::Ret => add(text, b"ret"),
        RLine::Fault(who, kind) => {
            add(text, b"fault ");
            add_fault(text, *who, *kind);
        }
        RLine::Reply(value, said) => {
            add(text, b"reply ");
            add_reply(text, *value, said);
        }
        RLine::End(live, ready) => {
            add(text, b"end ");
            add_two(text, *live, *ready);
        }
        RLine::Memory(digest) => {
            add(text, b"memory ");
            add_bytes(text, digest);
        }
    }
}

fn add_g_words(text: &mut LineText, line: &GLine)
    requires { length text.old ≤ 50 }
    ensures text { text.new ≡ text.old ++ g_words line.now }
    ensures short { length (g_words line.now) ≤ 540 }
{
    match line {
        GLine::Com1(byte) => {
            add(text, b"com1 ");
            add_byte(text, *byte);
        }
        GLine::Enter(vector) => add_numbered(text, b"enter ", *vector),
        GLine::Int(vector) => add_numbered(text, b"int ", *vector),
        GLine::Halt => add(text, b"halt"),
        GLine::Put(fifo, said) => {
            add(text, b"put ");
            add_put(text, *fifo, said);
        }
        GLine::Get(fifo, count) => {
            add(text, b"get ");
            add_two(text, *fifo, *count);
        }
        GLine::Shutdown(vector) => add_numbered(text, b"shutdown ", *vector),
        GLine::Breach(kind) => {
            add(text, b"breach ");
            add_breach(text, *kind);
        }
        GLine::End(mode, registers) => {
            add(text, b"end ");
            add(text, mode_text(*mode));
            add_words(text, registers);
        }
        GLine::Memory(digest) => {
            add(text, b"memory ");
            add_bytes(text, digest);
        }
    }
}

fn add_h_words(text: &mut LineText, line: &HLine)
    requires { length text.old ≤ 50 }
    ensures text { text.new ≡ text.old ++ h_words line.now }
    ensures short { length (h_words line.now) ≤ 540 }
{
    match line {
        HLine::Edge(line) => add_numbered(text, b"edge ", *line),
        HLine::Ack(line) => add_numbered(text, b"ack ", *line),
        HLine::Set(count) => add_numbered(text, b"set ", *count),
    }
}

// Appends a letter and a tick.
fn add_head(text: &mut LineText, letter: &[u8], tick: u32)
    requires empty { text.old ≡ [] }
    requires letter { length letter.now ≤ 2 }
    ensures text { text.new ≡ letter.now ++ (decimal tick ++ (32 ∷ [])) }
    ensures short { length text.new ≤ 13 }
{
    add(text, letter);
    add_decimal(text, tick);
    add(text, b" ");
}

// Appends a line by itself.
fn add_r_line(text: &mut LineText, tick: u32, line: &RLine)
    requires { text.old ≡ [] }
    ensures text { text.new ≡ r_text tick line.now }
    ensures short { length (r_text tick line.now) ≤ 600 }
{
    add_head(text, b"R ", tick);
    add_r_words(text, line);
}

fn add_g_line(text: &mut LineText, tick: u32, line: &GLine)
    requires { text.old ≡ [] }
    ensures text { text.new ≡ g_text tick line.now }
    ensures short { length (g_text tick line.now) ≤ 600 }
{
    add_head(text, b"G ", tick);
    add_g_words(text, line);
}

fn add_h_line(text: &mut LineText, tick: u32, line: &HLine)
    requires { text.old ≡ [] }
    ensures text { text.new ≡ h_text tick line.now }
    ensures short { length (h_text tick line.now) ≤ 600 }
{
    add_head(text, b"H ", tick);
    add_h_words(text, line);
}

/// Appends the text of an R line, without its end, where it fits. An empty line always has the room.
pub fn write_r(tick: u32, line: &RLine, out: &mut LineText) -> bool
    ensures pushes { Pushes out.old out.new (r_text tick line.now) result }
    ensures short { length (r_text tick line.now) ≤ 600 }
    ensures empty { out.old ≡ [] → IsTrue result }
{
    let mut text = LineText::new();
    add_r_line(&mut text, tick, line);
    out.push_text(text.as_bytes())
}

/// Appends the text of a G line, without its end, where it fits. An empty line always has the room.
pub fn write_g(tick: u32, line: &GLine, out: &mut LineText) -> bool
    ensures pushes { Pushes out.old out.new (g_text tick line.now) result }
    ensures short { length (g_text tick line.now) ≤ 600 }
    ensures empty { out.old ≡ [] → IsTrue result }
{
    let mut text = LineText::new();
    add_g_line(&mut text, tick, line);
    out.push_text(text.as_bytes())
}

/// Appends the text of an H line, without its end, where it fits. An empty line always has the room.
pub fn write_h(tick: u32, line: &HLine, out: &mut LineText) -> bool
    ensures pushes { Pushes out.old out.new (h_text tick line.now) result }
    ensures short { length (h_text tick line.now) ≤ 600 }
    ensures empty { out.old ≡ [] → IsTrue result }
{
    let mut text = LineText::new();
    add_h_line(&mut text, tick, line);
    out.push_text(text.as_bytes())
}
