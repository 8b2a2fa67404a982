// The lines of one tick.
ghost use Rattle.std.specs.Prelude.{◌≡◌, ◌<◌, ◌++◌, ◌∷◌, [], length, IfOk};
ghost use Rattle.trace_lines.specs.TickLines.{no_tick_lines};

use crate::{GLine, HLine, RLine};
use outside_io::NoMemory;
use std::alloc::Global;
use std::marker::Model;

/// How many R lines one tick has at most.
const R_ROOM: usize = 128;

/// How many H lines one tick has at most.
const H_ROOM: usize = 128;

/// How many G lines one tick has at most.
const G_ROOM: usize = 8;

/// Room for the lines of one tick: 128 R lines, 8 G lines and 128 H lines. It is seen as the three lists.
#[derive(Drop)]
pub struct Lines {
    r_lines: Vec<RLine>,
    g_lines: Vec<GLine>,
    h_lines: Vec<HLine>,
}

impl Model for Lines {
    ghost use Rattle.std.specs.Prelude.{vec_len, vec_capacity};
    ghost use Rattle.trace_lines.specs.TickLines.{TickLines, HasRoom};

    ghost Value = { TickLines };

    ghost view = { λ l. record { r = l.r_lines.items; g = l.g_lines.items; h = l.h_lines.items } };

    ghost invariant = { λ l. HasRoom 128 (vec_len l.r_lines) (vec_capacity l.r_lines) × HasRoom 8 (vec_len l.g_lines) (vec_capacity l.g_lines) × HasRoom 128 (vec_len l.h_lines) (vec_capacity l.h_lines) };
}

impl Lines {
    /// No lines, and the room for those of a tick.
    pub fn new(alloc: Global) -> Result<Lines, NoMemory>
        ensures { IfOk result (λ lines. lines ≡ no_tick_lines) }
    {
        match (
            Vec::with_capacity(alloc, R_ROOM),
            Vec::with_capacity(alloc, G_ROOM),
            Vec::with_capacity(alloc, H_ROOM),
        ) {
            (Ok(r_lines), Ok(g_lines), Ok(h_lines)) => Ok(Lines {
                r_lines,
                g_lines,
                h_lines,
            }),
            _ => Err(NoMemory),
        }
    }

    /// Empties all three lists.
    pub fn clear(&mut self)
        ensures { self.new ≡ no_tick_lines }
    {
        self.r_lines.clear();
        self.g_lines.clear();
        self.h_lines.clear();
    }

    /// The R lines.
    pub fn r(&self) -> &[RLine]
        ensures { result.now ≡ self.now.r }
    {
        self.r_lines.as_slice()
    }

    /// The G lines.
    pub fn g(&self) -> &[GLine]
        ensures { result.now ≡ self.now.g }
    {
        self.g_lines.as_slice()
    }

    /// The H lines.
    pub fn h(&self) -> &[HLine]
        ensures { result.now ≡ self.now.h }
    {
        self.h_lines.as_slice()
    }

    /// Appends an R line.
    pub fn push_r(&mut self, line: RLine)
        requires { length self.old.r < 128 }
        ensures { self.new ≡ record self.old { r = self.old.r ++ line ∷ [] } }
    {
        self.r_lines.push_reserved(line);
    }

    /// Appends a G line.
    pub fn push_g(&mut self, line: GLine)
        requires { length self.old.g < 8 }
        ensures { self.new ≡ record self.old { g = self.old.g ++ line ∷ [] } }
    {
        self.g_lines.push_reserved(line);
    }

    /// Appends an H line.
    pub fn push_h(&mut self, line: HLine)
        requires { length self.old.h < 128 }
        ensures { self.new ≡ record self.old { h = self.old.h ++ line ∷ [] } }
    {
        self.h_lines.push_reserved(line);
    }
}
