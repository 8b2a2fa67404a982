// The lines, their handlers and marks.
ghost use Rattle.std.specs.Prelude.{◌≡◌, ◌<◌, ◌≤◌, IfSome, IsTrue, true, Some};
ghost use Rattle.line_sets.specs.LineSet.{has, with_line, without_line};
ghost use Rattle.rt_irqs.specs.Irqs.{IsLines, entry_of, is_held, is_holdable, no_lines, request_result, requested, free_result, freed, next_of, free_soft_line, line_result, line_taken, free_soft_result, soft_freed, has_soft, is_pendable};

use line_sets::{
    has_line16, has_line32, lowest16, lowest32, minus32, with_line16, with_line32, without_line16,
    without_line32,
};
use rt_constants::lines::{ALL_LINES, CASCADE_LINE, COM1_LINE, HARD_LINES, TIMER_LINE};
use rt_constants::{EBUSY, EINVAL, failed};
use std::marker::Model;

/// The soft lines, 16 to 31.
const SOFT_LINES: u32 = 0xFFFF_0000;

// Handlers start in the 8259A's order: line 1, the slave's lines, and then the master's behind the cascade that can be held.
const FIRST_LINES: u16 = 0x0002;

const SLAVE_LINES: u16 = 0xFF00;

const LAST_LINES: u16 = 0x00E8;

/// The lines of the real-time side. Contracts see the list of 16 optional entries, the set of marked lines and the set of taken
/// soft lines, of which `IsLines` holds at all times.
#[derive(Clone, Copy, Debug)]
pub struct Irqs {
    entries: [Option<u32>; 16],
    marked: u16,
    soft: u32,
}

impl Model for Irqs {
    ghost use Rattle.rt_irqs.specs.Irqs.{Lines, IsLines};

    ghost Value = { Lines };

    ghost view = { λ i. record { entries = i.entries; marked = i.marked; soft = i.soft } };

    ghost invariant = { λ i. IsLines (record { entries = i.entries; marked = i.marked; soft = i.soft }) };

    ghost inverse = { λ l. record { entries = l.entries; marked = l.marked; soft = l.soft } };
}

// Whether a module may hold the line: not the timer's, the cascade's or the guest's serial port's.
fn is_holdable(line: u32) -> bool
    ensures { result ≡ is_holdable line }
{
    let taken = line == u32::from(TIMER_LINE)
        || line == u32::from(CASCADE_LINE)
        || line == u32::from(COM1_LINE);
    line < u32::from(HARD_LINES) && !taken
}

impl Irqs {
    /// No line is held, marked or taken.
    pub fn new() -> Irqs
        ensures value { result ≡ no_lines }
        ensures lines { IsLines result }
    {
        Irqs {
            entries: [None; 16],
            marked: 0,
            soft: 0,
        }
    }

    // The entry of a line's handler.
    fn entry(&self, line: u32) -> Option<u32>
        ensures entry { result ≡ entry_of self.now line }
        ensures lines { IsLines self.now }
    {
        if line < u32::from(HARD_LINES) {
            self.entries[line as usize]
        } else {
            None
        }
    }

    // Whether a module holds the line.
    fn is_held(&self, line: u32) -> bool
        ensures held { result ≡ is_held self.now line }
        ensures holdable { IsTrue result → is_holdable line ≡ true }
        ensures lines { IsLines self.now }
    {
        self.entry(line).is_some()
    }

    /// Whether a module holds the line.
    pub fn held(&self, line: u8) -> bool
        ensures held { result ≡ is_held self.now line }
        ensures holdable { IsTrue result → is_holdable line ≡ true }
        ensures lines { IsLines self.now }
    {
        self.is_held(line as u32)
    }

    /// A module takes the line with a handler at the entry: -22 exactly where the line isn't 1, 3 or 5 to 15, -16 exactly where
    /// such a line is held, else 0. A refusal changes nothing.
    pub fn request(&mut self, line: u32, entry: u32) -> i32
        ensures result { result ≡ request_result self.old line }
        ensures lines { self.new ≡ requested self.old line entry }
        ensures kept { IsLines self.new }
    {
        let held = self.is_held(line);
        if !is_holdable(line) {
            return failed(EINVAL);
        }
        if held {
            return failed(EBUSY);
        }
        self.entries[line as usize] = Some(entry);
        0
    }

    /// A module gives the line back, and its mark is cleared: -22 exactly where it isn't held, else 0. A refusal changes
    /// nothing.
    pub fn free(&mut self, line: u32) -> i32
        ensures result { result ≡ free_result self.old line }
        ensures lines { self.new ≡ freed self.old line }
        ensures kept { IsLines self.new }
    {
        if self.is_held(line) {
            self.entries[line as usize] = None;
            self.marked = without_line16(self.marked, line as u8);
            0
        } else {
            failed(EINVAL)
        }
    }

    /// Marks a held line, whose handler is then to start; a line that is marked stays so.
    pub fn mark(&mut self, line: u8)
        requires { IsTrue (is_held self.old line) }
        ensures mark { self.new ≡ record self.old { marked = with_line self.old.marked line } }
        ensures kept { IsLines self.new }
    {
        self.marked = with_line16(self.marked, line);
    }

    /// The marked line whose handler is next, in the order 1, 8 to 15, 3, 5, 6, 7; `None` exactly where no line is marked.
    pub fn next(&self) -> Option<u8>
        ensures line { result ≡ next_of self.now }
        ensures marked { IfSome result (λ n. has self.now.marked n ≡ true) }
        ensures below { IfSome result (λ n. n < 16) }
        ensures lines { IsLines self.now }
    {
        lowest16(self.marked & FIRST_LINES)
            .or(lowest16(self.marked & SLAVE_LINES))
            .or(lowest16(self.marked & LAST_LINES))
    }

    /// Starts a marked line's handler: clears the mark and gives the entry.
    pub fn start(&mut self, line: u8) -> u32
        requires { IsTrue (has self.old.marked line) }
        ensures entry { entry_of self.old line ≡ Some result }
        ensures mark { self.new ≡ record self.old { marked = without_line self.old.marked line } }
        ensures kept { IsLines self.new }
    {
        let entry = self.entry(line as u32);
        self.marked = without_line16(self.marked, line);
        entry.unwrap()
    }

    // The lowest soft line that is free.
    fn lowest_free_soft(&self) -> Option<u8>
        ensures line { result ≡ free_soft_line self.now.soft }
        ensures from { IfSome result (λ n. 16 ≤ n) }
        ensures below { IfSome result (λ n. n < 32) }
        ensures lines { IsLines self.now }
    {
        lowest32(minus32(SOFT_LINES, self.soft))
    }

    /// A module takes the lowest soft line that is free, and gets its number; -16 exactly where all are taken, and then nothing
    /// changes.
    pub fn get_soft(&mut self) -> i32
        ensures result { result ≡ line_result (free_soft_line self.old.soft) }
        ensures lines { self.new ≡ line_taken (free_soft_line self.old.soft) self.old }
        ensures kept { IsLines self.new }
    {
        match self.lowest_free_soft() {
            Some(line) => {
                self.soft = with_line32(self.soft, line);
                line as i32
            }
            None => failed(EBUSY),
        }
    }

    /// A module gives a soft line back: -22 exactly where it isn't taken, else 0. A refusal changes nothing.
    pub fn free_soft(&mut self, line: u32) -> i32
        ensures result { result ≡ free_soft_result self.old line }
        ensures lines { self.new ≡ soft_freed self.old line }
        ensures kept { IsLines self.new }
    {
        if !self.has_soft(line) {
            return failed(EINVAL);
        }
        self.soft = without_line32(self.soft, line as u8);
        0
    }

    /// Whether a line may be marked for the guest: a hard line, or a soft one that is taken.
    pub fn is_pendable(&self, line: u32) -> bool
        ensures pendable { result ≡ is_pendable self.now line }
        ensures below { IsTrue result → line < 32 }
    {
        line < u32::from(HARD_LINES) || self.has_soft(line)
    }

    /// Whether the soft line is taken; no line from 32 on is.
    pub fn has_soft(&self, line: u32) -> bool
        ensures taken { result ≡ has_soft self.now line }
        ensures soft { IsTrue result → 16 ≤ line }
        ensures below { IsTrue result → line < 32 }
        ensures lines { IsLines self.now }
    {
        if line < u32::from(ALL_LINES) {
            has_line32(self.soft, line as u8)
        } else {
            false
        }
    }
}
