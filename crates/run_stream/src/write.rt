// Lines into the sink.
ghost use Rattle.std.specs.Prelude.{◌≡◌, ◌++◌, flat_map, true};
ghost use Rattle.outside_io.specs.Sink.{Puts};
ghost use Rattle.line_kinds.specs.declared.kinds.Line.{Line};
ghost use Rattle.run_stream.specs.Lines.{tick_text, piece_of, tick_shown, ends_among, guest_text, hardware_text, real_time_text};
ghost use Rattle.trace_lines.specs.TickLines.{no_tick_lines};

use line_text::LineText;
use outside_io::{Sink, SinkFault};
use rt_core::EndLines;
use run_files::Shown;
use trace_lines::{GLine, HLine, Lines, RLine, write_g, write_h, write_r};

/// A line of one letter, which is printed.
pub trait Printed {
    /// The line among those of both halves.
    ghost line: { Self → Line };

    /// Its text at a tick, with its end.
    fn piece(&self, tick: u32) -> LineText
        ensures { result ≡ piece_of (tick, line self.now) };
}

impl Printed for GLine {
    ghost use Rattle.line_kinds.specs.declared.kinds.Line.TheVariants.{G};

    ghost line = { λ l. G l };

    fn piece(&self, tick: u32) -> LineText {
        let mut text = LineText::new();
        let _ = write_g(tick, self, &mut text);
        let _ = text.push_text(b"\n");
        text
    }
}

impl Printed for RLine {
    ghost use Rattle.line_kinds.specs.declared.kinds.Line.TheVariants.{R};

    ghost line = { λ l. R l };

    fn piece(&self, tick: u32) -> LineText {
        let mut text = LineText::new();
        let _ = write_r(tick, self, &mut text);
        let _ = text.push_text(b"\n");
        text
    }
}

impl Printed for HLine {
    ghost use Rattle.line_kinds.specs.declared.kinds.Line.TheVariants.{H};

    ghost line = { λ l. H l };

    fn piece(&self, tick: u32) -> LineText {
        let mut text = LineText::new();
        let _ = write_h(tick, self, &mut text);
        let _ = text.push_text(b"\n");
        text
    }
}

// Writes lines of one letter, each with one put. A fault ends it.
fn write_half<K: Sink, L: Printed>(sink: &mut K, tick: u32, lines: &[L]) -> Result<(), SinkFault>
    ensures { Puts (K.written sink.old) (K.written sink.new) (K.faults sink.old) (K.faults sink.new)
        (flat_map (λ l. piece_of (tick, L.line l)) lines.now) result }
{
    for line in lines {
        if let Err(fault) = sink.put(line.piece(tick).as_bytes()) {
            return Err(fault);
        }
    }
    Ok(())
}

// Writes R lines and then G lines.
fn write_both<K: Sink>(
    sink: &mut K,
    tick: u32,
    real_time: &[RLine],
    guest: &[GLine],
) -> Result<(), SinkFault>
    ensures { Puts (K.written sink.old) (K.written sink.new) (K.faults sink.old) (K.faults sink.new)
        (real_time_text tick real_time.now ++ guest_text tick guest.now) result }
{
    match write_half(sink, tick, real_time) {
        Ok(()) => write_half(sink, tick, guest),
        Err(fault) => Err(fault),
    }
}

// Writes H lines and then G lines.
fn write_behind<K: Sink>(
    sink: &mut K,
    tick: u32,
    hardware: &[HLine],
    guest: &[GLine],
) -> Result<(), SinkFault>
    ensures { Puts (K.written sink.old) (K.written sink.new) (K.faults sink.old) (K.faults sink.new)
        (hardware_text tick hardware.now ++ guest_text tick guest.now) result }
{
    match write_half(sink, tick, hardware) {
        Ok(()) => write_half(sink, tick, guest),
        Err(fault) => Err(fault),
    }
}

// Writes R lines, then H lines and G lines.
fn write_all<K: Sink>(
    sink: &mut K,
    tick: u32,
    real_time: &[RLine],
    hardware: &[HLine],
    guest: &[GLine],
) -> Result<(), SinkFault>
    ensures { Puts (K.written sink.old) (K.written sink.new) (K.faults sink.old) (K.faults sink.new)
        (real_time_text tick real_time.now ++ (hardware_text tick hardware.now ++ guest_text tick guest.now)) result }
{
    match write_half(sink, tick, real_time) {
        Ok(()) => write_behind(sink, tick, hardware, guest),
        Err(fault) => Err(fault),
    }
}

/// Whether a tick has no line, as most have none.
pub fn has_none(lines: &Lines) -> bool
    ensures { result ≡ true → lines.now ≡ no_tick_lines }
{
    lines.r().is_empty() && lines.g().is_empty() && lines.h().is_empty()
}

/// Writes the lines of a tick, each with one put: those that are shown. A fault ends it.
pub fn write_tick<K: Sink>(
    sink: &mut K,
    tick: u32,
    shown: Shown,
    lines: &Lines,
) -> Result<(), SinkFault>
    ensures { Puts (K.written sink.old) (K.written sink.new) (K.faults sink.old) (K.faults sink.new)
        (tick_text tick (tick_shown shown lines.now.r lines.now.h lines.now.g)) result }
{
    match shown {
        Shown::Guest => write_half(sink, tick, lines.g()),
        Shown::Both => write_both(sink, tick, lines.r(), lines.g()),
        Shown::WithHardware => write_all(sink, tick, lines.r(), lines.h(), lines.g()),
    }
}

/// Writes the end lines, each with one put: those that are shown. A fault ends it.
pub fn write_ends<K: Sink>(
    sink: &mut K,
    tick: u32,
    shown: Shown,
    ends: &EndLines,
) -> Result<(), SinkFault>
    ensures { Puts (K.written sink.old) (K.written sink.new) (K.faults sink.old) (K.faults sink.new)
        (tick_text tick (ends_among shown ends.now.r ends.now.g)) result }
{
    match shown {
        Shown::Guest => write_half(sink, tick, &ends.g[..1]),
        Shown::Both => write_both(sink, tick, &ends.r, &ends.g),
        Shown::WithHardware => write_both(sink, tick, &ends.r, &ends.g),
    }
}
