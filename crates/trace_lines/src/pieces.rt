// The parts of a line's text, each appended where it fits.
ghost use Rattle.std.specs.Prelude.{◌≡◌, ◌≤◌, ◌+◌, ◌++◌, length, decimal};
ghost use Rattle.std.specs.Fmt.{signed_decimal};
ghost use Rattle.line_text.specs.LineText.{hex_text, bytes_text};
ghost use Rattle.trace_lines.specs.Text.{who_words, fault_word, breach_words, mode_word, spaced_words};

use crate::{BreachKind, FaultKind, Mode, Who};
use line_text::{LineText, add, add_decimal};

// Appends a signed number that fits.
pub(crate) fn add_signed(text: &mut LineText, n: i32)
    requires { length text.old + 11 ≤ 640 }
    ensures text { text.new ≡ text.old ++ signed_decimal n }
    ensures short { length (signed_decimal n) ≤ 11 }
{
    let _ = text.push_signed(n);
}

// Appends two digits that fit.
pub(crate) fn add_byte(text: &mut LineText, n: u8)
    requires { length text.old + 2 ≤ 640 }
    ensures text { text.new ≡ text.old ++ hex_text 2 n }
    ensures short { length (hex_text 2 n) ≡ 2 }
{
    let _ = text.push_hex(u32::from(n), 2);
}

// Appends four digits that fit.
fn add_word(text: &mut LineText, n: u16)
    requires { length text.old + 4 ≤ 640 }
    ensures text { text.new ≡ text.old ++ hex_text 4 n }
    ensures short { length (hex_text 4 n) ≡ 4 }
{
    let _ = text.push_hex(u32::from(n), 4);
}

// Appends eight digits that fit.
fn add_doubleword(text: &mut LineText, n: u32)
    requires { length text.old + 8 ≤ 640 }
    ensures text { text.new ≡ text.old ++ hex_text 8 n }
    ensures short { length (hex_text 8 n) ≡ 8 }
{
    let _ = text.push_hex(n, 8);
}

// Appends bytes that fit.
pub(crate) fn add_bytes(text: &mut LineText, bytes: &[u8])
    requires few { length bytes.now ≤ 256 }
    requires room { length text.old + 512 ≤ 640 }
    ensures text { text.new ≡ text.old ++ bytes_text bytes.now }
    ensures short { length (bytes_text bytes.now) ≤ 512 }
{
    let _ = text.push_bytes(bytes);
}

// Appends a space and eight digits for each word.
pub(crate) fn add_words(text: &mut LineText, words: &[u32])
    requires room { length text.old ≤ 200 }
    requires few { length words.now ≤ 10 }
    ensures text { text.new ≡ text.old ++ spaced_words words.now }
    ensures short { length (spaced_words words.now) ≤ 90 }
{
    for word in words {
        add(text, b" ");
        add_doubleword(text, *word);
    }
}

// Appends a word and a number.
pub(crate) fn add_numbered(text: &mut LineText, word: &[u8], n: u32)
    requires room { length text.old ≤ 200 }
    requires short { length word.now ≤ 10 }
    ensures text { text.new ≡ text.old ++ (word.now ++ decimal n) }
    ensures long { length (word.now ++ decimal n) ≤ 20 }
{
    add(text, word);
    add_decimal(text, n);
}

// Appends a word and an address.
fn add_address(text: &mut LineText, word: &[u8], at: u32)
    requires room { length text.old ≤ 200 }
    requires short { length word.now ≤ 10 }
    ensures text { text.new ≡ text.old ++ (word.now ++ hex_text 8 at) }
    ensures long { length (word.now ++ hex_text 8 at) ≤ 18 }
{
    add(text, word);
    add_doubleword(text, at);
}

// Appends who it is.
pub(crate) fn add_who(text: &mut LineText, who: Who)
    requires { length text.old ≤ 100 }
    ensures text { text.new ≡ text.old ++ who_words who }
    ensures short { length (who_words who) ≤ 20 }
{
    match who {
        Who::Guest => add(text, b"guest"),
        Who::Thread(thread) => add_numbered(text, b"thread ", u32::from(thread)),
        Who::Init(module) => add_numbered(text, b"init ", u32::from(module)),
        Who::Irq(line) => add_numbered(text, b"irq ", u32::from(line)),
        Who::Fifo(fifo) => add_numbered(text, b"fifo ", u32::from(fifo)),
    }
}

pub(crate) fn fault_text(kind: FaultKind) -> &'static [u8]
    ensures word { result.now ≡ fault_word kind }
    ensures short { length result.now ≤ 10 }
{
    match kind {
        FaultKind::Divide => b"divide",
        FaultKind::Opcode => b"opcode",
        FaultKind::Int => b"int",
        FaultKind::Memory => b"memory",
        FaultKind::Port => b"port",
        FaultKind::Privileged => b"privileged",
    }
}

pub(crate) fn mode_text(mode: Mode) -> &'static [u8]
    ensures word { result.now ≡ mode_word mode }
    ensures short { length result.now ≤ 7 }
{
    match mode {
        Mode::Runs => b"runs",
        Mode::Halted => b"halted",
        Mode::Stopped => b"stopped",
    }
}

// Appends what stopped the guest.
pub(crate) fn add_breach(text: &mut LineText, kind: BreachKind)
    requires { length text.old ≤ 100 }
    ensures text { text.new ≡ text.old ++ breach_words kind }
    ensures short { length (breach_words kind) ≤ 20 }
{
    match kind {
        BreachKind::Cli => add(text, b"cli"),
        BreachKind::Sti => add(text, b"sti"),
        BreachKind::Iret => add(text, b"iret"),
        BreachKind::Pushf => add(text, b"pushf"),
        BreachKind::Popf => add(text, b"popf"),
        BreachKind::Hlt => add(text, b"hlt"),
        BreachKind::Int(vector) => add_numbered(text, b"int ", vector),
        BreachKind::Port(port) => {
            add(text, b"port ");
            add_word(text, port);
        }
        BreachKind::Fetch(at) => add_address(text, b"fetch ", at),
        BreachKind::Load(at) => add_address(text, b"load ", at),
        BreachKind::Store(at) => add_address(text, b"store ", at),
    }
}
