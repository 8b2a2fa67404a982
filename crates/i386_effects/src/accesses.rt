// Loads and stores, and loads in order with their words.
ghost use Rattle.std.specs.Prelude.{◌≡◌, ◌<◌, [], ◌∷◌, ◌++◌, length, slice_index};
ghost use Rattle.i386_effects.specs.Accesses.{words_unless, all_loaded};

use cpu_state::{Bus, Width};
use std::marker::Model;

/// A load: where an operand stands in memory, and its width.
#[derive(Clone, Copy, PartialEq, Eq, Debug)]
pub struct Touch {
    pub at: u32,
    pub width: Width,
}

/// A store of the low part of a value, as many bytes as the width has.
#[derive(Clone, Copy, PartialEq, Eq, Debug)]
pub struct Write {
    pub at: u32,
    pub width: Width,
    pub value: u32,
}

/// At most 8 words.
#[derive(Drop)]
pub struct Words {
    cells: [u32; 8],
    count: usize,
}

impl Model for Words {
    ghost use Rattle.std.specs.Prelude.{◌≤◌, ℕ, List, take};

    ghost Value = { List ℕ };

    ghost view = { λ s. take s.count s.cells };

    ghost invariant = { λ s. s.count ≤ 8 };
}

impl Words {
    /// No word.
    pub fn new() -> Words
        ensures { result ≡ [] }
    {
        Words {
            cells: [0; 8],
            count: 0,
        }
    }

    /// One more word.
    pub fn push(&mut self, word: u32)
        requires { length self.old < 8 }
        ensures { self.new ≡ self.old ++ word ∷ [] }
    {
        self.cells[self.count] = word;
        self.count += 1;
    }

    /// The words.
    pub fn as_slice(&self) -> &[u32]
        ensures value { result.now ≡ self.now }
        ensures short { length result.now < 9 }
    {
        &self.cells[..self.count]
    }
}

/// The word at a place, or 0.
pub fn word(words: &[u32], place: usize) -> u32
    ensures { result ≡ slice_index words.now place }
{
    if place < words.len() { words[place] } else { 0 }
}

/// Makes loads in order and appends their words, or gives the address of the first load that lies outside.
pub fn load_all<B: Bus>(touches: &[Touch], words: &mut Words, bus: &B) -> Option<u32>
    requires few { length touches.now < 9 }
    requires none { words.old ≡ [] }
    ensures { words_unless result words.new ≡ all_loaded (B.state bus.now).side touches.now }
{
    for touch in touches {
        match bus.load(touch.at, touch.width) {
            Some(word) => words.push(word),
            None => return Some(touch.at),
        }
    }
    None
}
