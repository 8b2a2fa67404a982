// Lines read back from their texts.
ghost use Rattle.std.specs.Prelude.{◌≡◌, ◌≢◌, ◌<◌, ◌^◌, ◌↔◌, ℕ, List, bytes_eq, IfSome, IfNone};
ghost use Rattle.trace_lines.specs.Fits.{IsGLine, IsHLine, IsLine, IsRLine};
ghost use Rattle.line_kinds.specs.declared.kinds.Line.{Line};
ghost use Rattle.trace_lines.specs.Text.{line_text};
ghost use Rattle.trace_lines.specs.Reading.{gate_line_in, fault_line_in, reply_line_in, r_end_in, r_line_in, put_line_in, get_line_in, g_end_in, breach_line_in, g_line_in, h_line_in, kind_in, words_read, line_in};

use crate::words::{
    behind_four, behind_who, breach, byte, bytes, cut, digest, fault_kind, four_words, mode,
    number, signed, ten_words, who,
};
use crate::{GLine, HLine, Line, RLine, write_g, write_h, write_r};
use line_text::LineText;

#[tactic(auto, unfolding(crate::specs::Reading::gate_line_in))]
fn gate(text: &[u8]) -> Option<RLine>
    ensures value { result ≡ gate_line_in text.now }
    ensures fits { IfSome result IsRLine }
{
    let (function, rest) = cut(text);
    let function = number(function)?;
    let registers = four_words(rest)?;
    let value = signed(behind_four(rest))?;
    Some(RLine::Gate(function, registers, value))
}

#[tactic(auto, unfolding(crate::specs::Reading::fault_line_in))]
fn fault_line(text: &[u8]) -> Option<RLine>
    ensures value { result ≡ fault_line_in text.now }
    ensures fits { IfSome result IsRLine }
{
    let who = who(text)?;
    let kind = fault_kind(behind_who(text))?;
    Some(RLine::Fault(who, kind))
}

#[tactic(auto, unfolding(crate::specs::Reading::reply_line_in))]
fn reply(text: &[u8]) -> Option<RLine>
    ensures value { result ≡ reply_line_in text.now }
    ensures fits { IfSome result IsRLine }
{
    let (value, rest) = cut(text);
    let value = signed(value)?;
    let said = bytes(rest)?;
    Some(RLine::Reply(value, said))
}

#[tactic(auto, unfolding(crate::specs::Reading::r_end_in))]
fn r_end(text: &[u8]) -> Option<RLine>
    ensures value { result ≡ r_end_in text.now }
    ensures fits { IfSome result IsRLine }
{
    let (live, ready) = cut(text);
    let live = number(live)?;
    let ready = number(ready)?;
    Some(RLine::End(live, ready))
}

#[tactic(auto, unfolding(crate::specs::Reading::r_line_in))]
fn r_line(word: &[u8], rest: &[u8]) -> Option<RLine>
    ensures value { result ≡ r_line_in word.now rest.now }
    ensures fits { IfSome result IsRLine }
{
    if word == b"com2".as_slice() {
        Some(RLine::Com2(byte(rest)?))
    } else if word == b"release".as_slice() {
        Some(RLine::Release(number(rest)?))
    } else if word == b"on".as_slice() {
        Some(RLine::On(who(rest)?))
    } else if word == b"gate".as_slice() {
        gate(rest)
    } else if word == b"say".as_slice() {
        Some(RLine::Say(bytes(rest)?))
    } else if word == b"ret".as_slice() {
        Some(RLine::Ret)
    } else if word == b"fault".as_slice() {
        fault_line(rest)
    } else if word == b"reply".as_slice() {
        reply(rest)
    } else if word == b"end".as_slice() {
        r_end(rest)
    } else if word == b"memory".as_slice() {
        Some(RLine::Memory(digest(rest)?))
    } else {
        None
    }
}

#[tactic(auto, unfolding(crate::specs::Reading::put_line_in))]
fn put(text: &[u8]) -> Option<GLine>
    ensures value { result ≡ put_line_in text.now }
    ensures fits { IfSome result IsGLine }
{
    let (fifo, rest) = cut(text);
    let fifo = number(fifo)?;
    let said = bytes(rest)?;
    Some(GLine::Put(fifo, said))
}

#[tactic(auto, unfolding(crate::specs::Reading::get_line_in))]
fn get(text: &[u8]) -> Option<GLine>
    ensures value { result ≡ get_line_in text.now }
    ensures fits { IfSome result IsGLine }
{
    let (fifo, count) = cut(text);
    let fifo = number(fifo)?;
    let count = number(count)?;
    Some(GLine::Get(fifo, count))
}

#[tactic(auto, unfolding(crate::specs::Reading::g_end_in))]
fn g_end(text: &[u8]) -> Option<GLine>
    ensures value { result ≡ g_end_in text.now }
    ensures fits { IfSome result IsGLine }
{
    let (word, rest) = cut(text);
    let mode = mode(word)?;
    let registers = ten_words(rest)?;
    Some(GLine::End(mode, registers))
}

#[tactic(auto, unfolding(crate::specs::Reading::breach_line_in))]
fn breach_line(text: &[u8]) -> Option<GLine>
    ensures value { result ≡ breach_line_in text.now }
    ensures fits { IfSome result IsGLine }
{
    let (kind, value) = cut(text);
    Some(GLine::Breach(breach(kind, value)?))
}

#[tactic(auto, unfolding(crate::specs::Reading::g_line_in))]
fn g_line(word: &[u8], rest: &[u8]) -> Option<GLine>
    ensures value { result ≡ g_line_in word.now rest.now }
    ensures fits { IfSome result IsGLine }
{
    if word == b"com1".as_slice() {
        Some(GLine::Com1(byte(rest)?))
    } else if word == b"enter".as_slice() {
        Some(GLine::Enter(number(rest)?))
    } else if word == b"int".as_slice() {
        Some(GLine::Int(number(rest)?))
    } else if word == b"halt".as_slice() {
        Some(GLine::Halt)
    } else if word == b"put".as_slice() {
        put(rest)
    } else if word == b"get".as_slice() {
        get(rest)
    } else if word == b"shutdown".as_slice() {
        Some(GLine::Shutdown(number(rest)?))
    } else if word == b"breach".as_slice() {
        breach_line(rest)
    } else if word == b"end".as_slice() {
        g_end(rest)
    } else if word == b"memory".as_slice() {
        Some(GLine::Memory(digest(rest)?))
    } else {
        None
    }
}

#[tactic(auto, unfolding(crate::specs::Reading::h_line_in))]
fn h_line(word: &[u8], rest: &[u8]) -> Option<HLine>
    ensures value { result ≡ h_line_in word.now rest.now }
    ensures fits { IfSome result IsHLine }
{
    if word == b"edge".as_slice() {
        Some(HLine::Edge(number(rest)?))
    } else if word == b"ack".as_slice() {
        Some(HLine::Ack(number(rest)?))
    } else if word == b"set".as_slice() {
        Some(HLine::Set(number(rest)?))
    } else {
        None
    }
}

// The line of a letter, a first word and what is behind it.
#[tactic(auto, unfolding(crate::specs::Reading::kind_in))]
fn line_of_kind(letter: &[u8], word: &[u8], rest: &[u8]) -> Option<Line>
    ensures value { result ≡ kind_in letter.now word.now rest.now }
    ensures fits { IfSome result IsLine }
{
    if letter == b"R".as_slice() {
        Some(Line::R(r_line(word, rest)?))
    } else if letter == b"G".as_slice() {
        Some(Line::G(g_line(word, rest)?))
    } else if letter == b"H".as_slice() {
        Some(Line::H(h_line(word, rest)?))
    } else {
        None
    }
}

// What the words stand for, however they are written.
#[tactic(auto, unfolding(crate::specs::Reading::words_read))]
fn read_words(text: &[u8]) -> Option<(u32, Line)>
    ensures value { result ≡ words_read text.now }
    ensures fits { IfSome result (λ found. IsLine found.1) }
{
    let (letter, rest) = cut(text);
    let (tick, rest) = cut(rest);
    let tick = number(tick)?;
    let (word, rest) = cut(rest);
    let line = line_of_kind(letter, word, rest)?;
    Some((tick, line))
}

// The text of a line is this one.
fn is_text_of(text: &[u8], tick: u32, line: &Line) -> bool
    ensures { result ≡ bytes_eq text.now (line_text tick line.now) }
{
    let mut out = LineText::new();
    let _ = match line {
        Line::R(line) => write_r(tick, line, &mut out),
        Line::G(line) => write_g(tick, line, &mut out),
        Line::H(line) => write_h(tick, line, &mut out),
    };
    text == out.as_bytes()
}

// The tick and the line that the words stand for, where this is their text.
#[tactic(auto, unfolding(crate::specs::Reading::line_in))]
fn own_line(text: &[u8]) -> Option<(u32, Line)>
    ensures value { result ≡ line_in text.now }
    ensures found { IfSome result (λ found. (found.0 < 2 ^ 32) × IsLine found.1 × (text.now ≡ line_text found.0 found.1)) }
{
    let (tick, line) = read_words(text)?;
    if is_text_of(text, tick, &line) {
        Some((tick, line))
    } else {
        None
    }
}

/// The tick and the line whose text this is, as `write_r`, `write_g` and `write_h` write it. `None` exactly where the
/// text is no line's.
pub fn read_line(text: &[u8]) -> Option<(u32, Line)>
    ensures value { result ≡ line_in text.now }
    ensures found { IfSome result (λ found. (found.0 < 2 ^ 32) × IsLine found.1 × (text.now ≡ line_text found.0 found.1)) }
    ensures theirs { (tick : ℕ) (line : Line) → tick < 2 ^ 32 → IsLine line → (line_in text.now ≡ Some (tick, line)) ↔ (text.now ≡ line_text tick line) }
    ensures none { IfNone result ((tick : ℕ) (line : Line) → tick < 2 ^ 32 → IsLine line → text.now ≢ line_text tick line) }
{
    own_line(text)
}

/// Two lines, or one line at two ticks, have different texts. A text is read only as what has it, and what has it is
/// read.
pub fn one_line_a_text()
    ensures differ { (s t : ℕ) (k l : Line) → s < 2 ^ 32 → t < 2 ^ 32 → IsLine k → IsLine l → line_text s k ≡ line_text t l → (s ≡ t) × (k ≡ l) }
    ensures own { (text : List ℕ) (found : ℕ × Line) → line_in text ≡ Some found → text ≡ line_text found.0 found.1 }
    ensures read { (tick : ℕ) (line : Line) → tick < 2 ^ 32 → IsLine line → line_in (line_text tick line) ≡ Some (tick, line) }
{}
