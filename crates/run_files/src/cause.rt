// Why a run is refused.
ghost use Rattle.std.specs.Prelude.{◌≡◌, ◌≤◌, length};

use outside_io::LastName;
use std::marker::Model;

/// Why the words, the ticks or a file are refused.
#[derive(Clone, Copy, Debug, PartialEq, Eq)]
pub enum Cause {
    /// The words aren't those of the command.
    Words,
    /// The ticks are 0 or above the limit.
    Ticks,
    /// The name holds no file, or what is outside failed.
    Read,
    /// The file has more than 33,554,432 bytes.
    TooLarge,
    /// The system file is no TOML document.
    Document,
    /// A field of the system file is wrong, missing or unknown.
    Field,
    /// The image or a module is no ELF file that is taken, and this is the number of the first rule that it breaks.
    Image(u8),
    /// A part of the image or of a module isn't wholly on its side.
    Outside,
    /// Two parts share a byte, or a part of a module has one of a reserved range.
    Overlap,
    /// The line of the script with this number, counted from 1, is the first bad one.
    Line(u32),
}

/// What a refusal is about: the name of a file, or the word of the ticks, or nothing. Contracts see its bytes, at most 255.
#[derive(Drop)]
pub struct Subject {
    name: LastName,
}

impl Model for Subject {
    ghost use Rattle.std.specs.Prelude.{◌≤◌, List, ℕ, length};

    ghost Value = { List ℕ };

    ghost view = { λ s. s.name };

    ghost invariant = { λ s. length s.name ≤ 255 };
}

impl Subject {
    /// This name or word.
    pub fn new(name: &[u8]) -> Subject
        requires { length name.now ≤ 255 }
        ensures { result ≡ name.now }
    {
        let mut kept = LastName::new();
        kept.keep(name);
        Subject { name: kept }
    }

    /// Its bytes.
    pub fn as_slice(&self) -> &[u8]
        ensures bytes { result.now ≡ self.now }
        ensures short { length result.now ≤ 255 }
    {
        self.name.as_slice()
    }
}

/// Why there is no run, or no part of it.
#[derive(Drop)]
pub enum Refusal {
    /// The words, the ticks or a file are refused, for this cause.
    Because(Cause, Subject),
    /// Memory was refused.
    NoMemory,
}

/// The refusal for a cause, with the name or the word that it is about.
pub fn refused(cause: Cause, name: &[u8]) -> Refusal
    requires { length name.now ≤ 255 }
    ensures { result ≡ Refusal.Because cause name.now }
{
    Refusal::Because(cause, Subject::new(name))
}
