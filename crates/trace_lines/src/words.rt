// The words of a line, read back.
ghost use Rattle.std.specs.Prelude.{◌≡◌, length, IfSome};
ghost use Rattle.trace_lines.specs.Fits.{AreSaid, IsBreach, IsDigest, IsWho};
ghost use Rattle.trace_lines.specs.Words.{negative_of, positive_of, front_word, rest_of, number_in, small_in, byte_in, word_in, doubleword_in, signed_in, bytes_in, digest_in, words_in, after_four, numbered_in, who_in, after_who, fault_in, mode_in, plain_breach_in, breach_in};
ghost use Rattle.trace_lines.specs.Filled.{Fills};

use crate::{BreachKind, FaultKind, Mode, Said, Who};
use hex::FromHex;
use line_text::{read_decimal, read_hex};

/// How many bytes a line shows at most.
const MOST_BYTES: usize = 256;

/// The least signed number of 32 bits, without its sign.
const LEAST: u32 = 0x8000_0000;

// The first word, and what is behind the space after it.
#[tactic(auto, unfolding(crate::specs::Words::front_word, crate::specs::Words::rest_of))]
pub(crate) fn cut(text: &[u8]) -> (&[u8], &[u8])
    ensures word { result.0.now ≡ front_word text.now }
    ensures rest { result.1.now ≡ rest_of text.now }
{
    line_text::cut(text, b' ')
}

#[tactic(auto, unfolding(crate::specs::Words::number_in))]
pub(crate) fn number(text: &[u8]) -> Option<u32>
    ensures { result ≡ number_in text.now }
{
    match read_decimal(text) {
        Some(n) if n <= u64::from(u32::MAX) => Some(n as u32),
        _ => None,
    }
}

#[tactic(auto, unfolding(crate::specs::Words::small_in))]
fn small_number(text: &[u8]) -> Option<u8>
    ensures { result ≡ small_in text.now }
{
    match read_decimal(text) {
        Some(n) if n <= u64::from(u8::MAX) => Some(n as u8),
        _ => None,
    }
}

#[tactic(auto, unfolding(crate::specs::Words::byte_in))]
pub(crate) fn byte(text: &[u8]) -> Option<u8>
    ensures { result ≡ byte_in text.now }
{
    Some(read_hex(text, 2)? as u8)
}

#[tactic(auto, unfolding(crate::specs::Words::word_in))]
fn word(text: &[u8]) -> Option<u16>
    ensures { result ≡ word_in text.now }
{
    Some(read_hex(text, 4)? as u16)
}

#[tactic(auto, unfolding(crate::specs::Words::doubleword_in))]
fn doubleword(text: &[u8]) -> Option<u32>
    ensures { result ≡ doubleword_in text.now }
{
    read_hex(text, 8)
}

#[tactic(auto, unfolding(crate::specs::Words::signed_in))]
pub(crate) fn signed(text: &[u8]) -> Option<i32>
    ensures { result ≡ signed_in text.now }
{
    match text {
        [b'-', digits @ ..] => negative(number(digits)?),
        [] => None,
        _ => positive(number(text)?),
    }
}

fn negative(n: u32) -> Option<i32>
    ensures { result ≡ negative_of n }
{
    if n > LEAST {
        None
    } else {
        Some((-i64::from(n)) as i32)
    }
}

fn positive(n: u32) -> Option<i32>
    ensures { result ≡ positive_of n }
{
    if n < LEAST { Some(n as i32) } else { None }
}

#[tactic(auto, unfolding(crate::specs::Words::bytes_in))]
pub(crate) fn bytes(text: &[u8]) -> Option<Said>
    ensures value { result ≡ bytes_in text.now }
    ensures fits { IfSome result AreSaid }
{
    if text == b"-".as_slice() {
        return Some(Said::new(b""));
    }
    let len = text.len() / 2;
    if len > MOST_BYTES {
        return None;
    }
    let mut bytes = [0; 256];
    match hex::decode_to_slice(text, &mut bytes[..len]) {
        Ok(()) => Some(Said::new(&bytes[..len])),
        Err(_) => None,
    }
}

#[tactic(auto, unfolding(crate::specs::Words::digest_in))]
pub(crate) fn digest(text: &[u8]) -> Option<[u8; 32]>
    ensures value { result ≡ digest_in text.now }
    ensures fits { IfSome result IsDigest }
{
    <[u8; 32] as FromHex>::from_hex(text).ok()
}

// Reads as many words as there is room for.
#[tactic(auto, unfolding(crate::specs::Words::words_in))]
fn fill(text: &[u8], words: &mut [u32]) -> bool
    ensures { Fills (words_in (length words.old) text.now) words.new result }
{
    let mut rest = text;
    for word in words.iter_mut() {
        let (digits, behind) = cut(rest);
        match doubleword(digits) {
            Some(n) => *word = n,
            None => return false,
        }
        rest = behind;
    }
    true
}

pub(crate) fn four_words(text: &[u8]) -> Option<[u32; 4]>
    ensures { result ≡ words_in 4 text.now }
{
    let mut words = [0; 4];
    if fill(text, &mut words) {
        Some(words)
    } else {
        None
    }
}

pub(crate) fn ten_words(text: &[u8]) -> Option<[u32; 10]>
    ensures { result ≡ words_in 10 text.now }
{
    let mut words = [0; 10];
    if fill(text, &mut words) {
        Some(words)
    } else {
        None
    }
}

#[tactic(auto, unfolding(crate::specs::Words::after_four))]
pub(crate) fn behind_four(text: &[u8]) -> &[u8]
    ensures { result.now ≡ after_four text.now }
{
    let (_, text) = cut(text);
    let (_, text) = cut(text);
    let (_, text) = cut(text);
    let (_, text) = cut(text);
    text
}

#[tactic(auto, unfolding(crate::specs::Words::numbered_in))]
fn numbered(kind: &[u8], number: &[u8]) -> Option<Who>
    ensures value { result ≡ numbered_in kind.now number.now }
    ensures fits { IfSome result IsWho }
{
    if kind == b"thread".as_slice() {
        Some(Who::Thread(small_number(number)?))
    } else if kind == b"init".as_slice() {
        Some(Who::Init(small_number(number)?))
    } else if kind == b"irq".as_slice() {
        Some(Who::Irq(small_number(number)?))
    } else if kind == b"fifo".as_slice() {
        Some(Who::Fifo(small_number(number)?))
    } else {
        None
    }
}

#[tactic(auto, unfolding(crate::specs::Words::who_in))]
pub(crate) fn who(text: &[u8]) -> Option<Who>
    ensures value { result ≡ who_in text.now }
    ensures fits { IfSome result IsWho }
{
    let (kind, rest) = cut(text);
    if kind == b"guest".as_slice() {
        return Some(Who::Guest);
    }
    let (number, _) = cut(rest);
    numbered(kind, number)
}

#[tactic(auto, unfolding(crate::specs::Words::after_who))]
pub(crate) fn behind_who(text: &[u8]) -> &[u8]
    ensures { result.now ≡ after_who text.now }
{
    let (kind, rest) = cut(text);
    if kind == b"guest".as_slice() {
        return rest;
    }
    let (_, behind) = cut(rest);
    behind
}

#[tactic(auto, unfolding(crate::specs::Words::fault_in))]
pub(crate) fn fault_kind(word: &[u8]) -> Option<FaultKind>
    ensures { result ≡ fault_in word.now }
{
    if word == b"divide".as_slice() {
        Some(FaultKind::Divide)
    } else if word == b"opcode".as_slice() {
        Some(FaultKind::Opcode)
    } else if word == b"int".as_slice() {
        Some(FaultKind::Int)
    } else if word == b"memory".as_slice() {
        Some(FaultKind::Memory)
    } else if word == b"port".as_slice() {
        Some(FaultKind::Port)
    } else if word == b"privileged".as_slice() {
        Some(FaultKind::Privileged)
    } else {
        None
    }
}

#[tactic(auto, unfolding(crate::specs::Words::mode_in))]
pub(crate) fn mode(word: &[u8]) -> Option<Mode>
    ensures { result ≡ mode_in word.now }
{
    if word == b"runs".as_slice() {
        Some(Mode::Runs)
    } else if word == b"halted".as_slice() {
        Some(Mode::Halted)
    } else if word == b"stopped".as_slice() {
        Some(Mode::Stopped)
    } else {
        None
    }
}

#[tactic(auto, unfolding(crate::specs::Words::plain_breach_in))]
fn plain_breach(word: &[u8]) -> Option<BreachKind>
    ensures value { result ≡ plain_breach_in word.now }
    ensures fits { IfSome result IsBreach }
{
    if word == b"cli".as_slice() {
        Some(BreachKind::Cli)
    } else if word == b"sti".as_slice() {
        Some(BreachKind::Sti)
    } else if word == b"iret".as_slice() {
        Some(BreachKind::Iret)
    } else if word == b"pushf".as_slice() {
        Some(BreachKind::Pushf)
    } else if word == b"popf".as_slice() {
        Some(BreachKind::Popf)
    } else if word == b"hlt".as_slice() {
        Some(BreachKind::Hlt)
    } else {
        None
    }
}

#[tactic(auto, unfolding(crate::specs::Words::breach_in))]
pub(crate) fn breach(kind: &[u8], value: &[u8]) -> Option<BreachKind>
    ensures value { result ≡ breach_in kind.now value.now }
    ensures fits { IfSome result IsBreach }
{
    if kind == b"int".as_slice() {
        Some(BreachKind::Int(number(value)?))
    } else if kind == b"port".as_slice() {
        Some(BreachKind::Port(word(value)?))
    } else if kind == b"fetch".as_slice() {
        Some(BreachKind::Fetch(doubleword(value)?))
    } else if kind == b"load".as_slice() {
        Some(BreachKind::Load(doubleword(value)?))
    } else if kind == b"store".as_slice() {
        Some(BreachKind::Store(doubleword(value)?))
    } else {
        plain_breach(kind)
    }
}
