//! The interrupts that are asked of the guest and wait for it: lines 0 to 15 are hard, 16 to 31 are soft.
#![tactic(auto)]

ghost use Rattle.std.specs.Prelude.{◌≡◌, ◌<◌, IfSome};
ghost use Rattle.line_sets.specs.LineSet.{union, with_line, without_line};
ghost use Rattle.pending_irqs.specs.Pending.{lowest_enabled};

use line_sets::{lowest32, minus32, with_line32, without_line32};
use std::marker::Model;

/// The marked lines. Contracts see them as a set of 32 lines.
#[derive(Clone, Copy, Debug)]
pub struct Pending {
    marked: u32,
}

impl Model for Pending {
    ghost use Rattle.std.specs.Prelude.{ℕ};

    ghost Value = { ℕ };

    ghost view = { λ p. p.marked };

    ghost inverse = { λ n. record { marked = n } };
}

impl Pending {
    /// No line is marked.
    pub fn new() -> Pending
        ensures { result ≡ 0 }
    {
        Pending { marked: 0 }
    }

    /// Marks a line; a line that is marked stays so.
    pub fn mark(&mut self, line: u8)
        requires { line < 32 }
        ensures { self.new ≡ with_line self.old line }
    {
        self.marked = with_line32(self.marked, line);
    }

    /// Marks each line of a set.
    pub fn mark_all(&mut self, lines: u32)
        ensures { self.new ≡ union self.old lines }
    {
        self.marked |= lines;
    }

    /// Clears a line's mark, if it has one.
    pub fn clear(&mut self, line: u8)
        requires { line < 32 }
        ensures { self.new ≡ without_line self.old line }
    {
        self.marked = without_line32(self.marked, line);
    }

    /// The lowest marked line whose bit in the mask is 0; `None` exactly where there is none.
    pub fn lowest(&self, mask: u32) -> Option<u8>
        ensures line { result ≡ lowest_enabled self.now mask }
        ensures below { IfSome result (λ n. n < 32) }
    {
        lowest32(minus32(self.marked, mask))
    }
}
