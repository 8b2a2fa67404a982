// A set of priorities, 0 to 255, as 256 bits.
ghost use Rattle.std.specs.Prelude.{◌≡◌, ◌≢◌, ◌<◌, ℕ, true, false};
ghost use Rattle.std.specs.Int.{bit_at};
ghost use Rattle.ready_queues.specs.PrioritySet.{has, IsHighest};

use std::marker::Model;

/// The set, as four words of 64 bits: priority p is bit p % 64 of word p / 64.
#[derive(Drop, Clone, Copy)]
pub struct PrioritySet {
    words: [u64; 4],
}

impl Model for PrioritySet {
    ghost use Rattle.std.specs.Prelude.{List, ℕ, length, ◌≡◌};

    ghost Value = { List ℕ };

    ghost view = { λ s. s.words };

    ghost inverse = { λ words. record { words = words } };

    ghost invariant = { λ s. length s.words ≡ 4 };
}

impl PrioritySet {
    /// No priority.
    pub fn new() -> Self
        ensures { (p : ℕ) → p < 256 → has result p ≡ false }
    {
        PrioritySet { words: [0; 4] }
    }

    /// Puts a priority in.
    pub fn put(&mut self, priority: u8)
        ensures put { has self.new priority ≡ true }
        ensures rest { (p : ℕ) → p < 256 → p ≢ priority → has self.new p ≡ has self.old p }
    {
        let at = (priority / 64) as usize;
        self.words[at] |= 1 << (priority % 64);
    }

    /// Takes a priority out.
    pub fn remove(&mut self, priority: u8)
        ensures removed { has self.new priority ≡ false }
        ensures rest { (p : ℕ) → p < 256 → p ≢ priority → has self.new p ≡ has self.old p }
    {
        let at = (priority / 64) as usize;
        self.words[at] &= !(1 << (priority % 64));
    }

    /// The greatest priority; `None` exactly where there is none.
    pub fn highest(&self) -> Option<u8>
        ensures { IsHighest self.now result }
    {
        for step in 0..4 {
            let at = 3 - step;
            let word = self.words[at as usize];
            if word != 0 {
                return Some(64 * at + top_bit(word));
            }
        }
        None
    }
}

// The highest bit that is 1.
fn top_bit(word: u64) -> u8
    requires { 0 < word }
    ensures within { result < 64 }
    ensures one { bit_at word result ≡ 1 }
    ensures above { (i : ℕ) → result < i → bit_at word i ≡ 0 }
{
    (63 - word.leading_zeros()) as u8
}
