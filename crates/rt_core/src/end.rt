// The end lines.
ghost use Rattle.std.specs.Prelude.{◌≡◌, ◌∷◌, []};
ghost use Rattle.line_kinds.specs.declared.kinds.RLine.TheVariants as shown;
ghost use Rattle.soft_entry.specs.Entry.{flags_word};
ghost use Rattle.side_digest.specs.Digest.{digest};
ghost use Rattle.rt_core.specs.Ends.{live_count, ready_count};

use cpu_state::Registers;
use executive::Executive;
use side_digest::side_digest;
use trace_lines::{GLine, Mode, RLine};

/// The two end lines of each half.
#[derive(Clone, Copy, Debug)]
pub struct EndLines {
    pub r: [RLine; 2],
    pub g: [GLine; 2],
}

fn end_words(eip: u32, word: u32, general: &[u32; 8]) -> [u32; 10]
    ensures { result ≡ eip ∷ word ∷ general.now }
{
    let mut words = [0; 10];
    words[0] = eip;
    words[1] = word;
    words[2..].copy_from_slice(general);
    words
}

/// The guest's first end line, in which bit 9 of EFLAGS is the soft flag.
pub fn guest_end(registers: &Registers, flag: bool, mode: Mode) -> GLine
    ensures { result ≡ GLine.End mode (registers.now.eip ∷ flags_word flag registers.now.eflags ∷ registers.now.general) }
{
    let eflags = registers.eflags.with_interrupt(flag).word();
    GLine::End(mode, end_words(registers.eip, eflags, &registers.general))
}

/// The guest's end lines: its first one, and the digest of its side.
pub fn guest_ends(first: GLine, bytes: &[u8]) -> [GLine; 2]
    ensures { result ≡ first ∷ GLine.Memory (digest bytes.now) ∷ [] }
{
    [first, GLine::Memory(side_digest(bytes))]
}

/// The real-time side's end lines: how many threads are live and how many of them ready, and the digest of the side.
pub fn real_time_ends(all: &Executive, bytes: &[u8]) -> [RLine; 2]
    ensures { result ≡ shown.End (live_count all.now) (ready_count all.now) ∷ shown.Memory (digest bytes.now) ∷ [] }
{
    [
        RLine::End(all.threads.count(), all.ready.count()),
        RLine::Memory(side_digest(bytes)),
    ]
}
