// One line of a script.
ghost use Rattle.std.specs.Prelude.{◌≡◌};
ghost use Rattle.device_script.specs.Line.{event_of, behind_tick, event_in, tick_of, tick_in, interrupt_line_of, hex_byte_of, decimal, is_skipped as skipped_test};

use crate::cut::skip;
use crate::event::Event;
use line_text::{are_digits, cut, read_hex};

/// The last tick that an event may have.
const LAST_TICK: u64 = 1_000_000_000;

/// The longest text of a tick, in digits.
const TICK_DIGITS: usize = 10;

/// Whether the line has no event: it is empty, or a comment.
pub fn is_skipped(line: &[u8]) -> bool
    ensures { result ≡ skipped_test line.now }
{
    match line {
        [] => true,
        [first, ..] => *first == b'#',
    }
}

/// The tick and the event of a line, where it has one of the three forms.
#[tactic(auto, unfolding(crate::specs::Line::event_of))]
pub fn event(line: &[u8]) -> Option<(u32, Event)>
    ensures { result ≡ event_of line.now }
{
    let (first, behind) = cut(line, b' ');
    let tick = tick(first)?;
    let event = event_behind(behind)?;
    Some((tick, event))
}

// The event that stands behind the tick.
#[tactic(auto, unfolding(crate::specs::Line::behind_tick))]
fn event_behind(bytes: &[u8]) -> Option<Event>
    ensures { result ≡ behind_tick bytes.now }
{
    let (kind, value) = cut(skip(bytes), b' ');
    kind_event(kind, skip(value))
}

#[tactic(auto, unfolding(crate::specs::Line::event_in))]
fn kind_event(kind: &[u8], value: &[u8]) -> Option<Event>
    ensures { result ≡ event_in kind.now value.now }
{
    if kind == b"line".as_slice() {
        Some(Event::Line(line(value)?))
    } else if kind == b"com1".as_slice() {
        Some(Event::Com1(byte(value)?))
    } else if kind == b"com2".as_slice() {
        Some(Event::Com2(byte(value)?))
    } else {
        None
    }
}

#[tactic(auto, unfolding(crate::specs::Line::tick_of))]
fn tick(text: &[u8]) -> Option<u32>
    ensures { result ≡ tick_of text.now }
{
    if text.is_empty() || text.len() > TICK_DIGITS || !are_digits(text) {
        return None;
    }
    value_within(text)
}

// The value of the digits, where it is a tick.
fn value_within(text: &[u8]) -> Option<u32>
    ensures { result ≡ tick_in (decimal 0 text.now) }
{
    let mut n = 0u64;
    for c in text {
        n = n * 10 + u64::from(c.saturating_sub(b'0'));
        if n > LAST_TICK {
            return None;
        }
    }
    if n < 1 {
        return None;
    }
    Some(n as u32)
}

fn line(text: &[u8]) -> Option<u8>
    ensures { result ≡ interrupt_line_of text.now }
{
    match text {
        [b'1'] => Some(1),
        [d] if b'5' <= *d && *d <= b'9' => Some(*d - b'0'),
        [b'1', d] if b'0' <= *d && *d <= b'5' => Some(*d - b'0' + 10),
        _ => None,
    }
}

fn byte(text: &[u8]) -> Option<u8>
    ensures { result ≡ hex_byte_of text.now }
{
    Some(read_hex(text, 2)? as u8)
}
