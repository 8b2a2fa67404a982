// The parse of words by a command.
ghost use Rattle.std.specs.Prelude.{◌≡◌, true, map, string_bytes};
ghost use Rattle.clap.specs.Words.{app_of, is_simple_and_free};
ghost use Rattle.command_words.specs.Parse.{ParsesBy};

use clap::error::ErrorKind;
use clap::{ArgMatches, Command};

/// Why words aren't taken.
#[derive(Clone, Copy, Debug, PartialEq, Eq)]
pub enum WordsRefusal {
    /// They aren't the words of the command.
    Usage,
    /// Memory was refused.
    NoMemory,
}

/// Parses words by a command whose parse the crate `clap` defines.
pub fn parse_words<'a>(
    command: Command<'a>,
    words: &'a [String],
) -> Result<ArgMatches<'a>, WordsRefusal>
    requires { is_simple_and_free (app_of command) ≡ true }
    ensures { ParsesBy command.entry (map string_bytes words.entry.now) result }
{
    match command.try_get_matches_from(words) {
        Ok(matches) => Ok(matches),
        Err(fault) if fault.kind() == ErrorKind::OutOfMemory => Err(WordsRefusal::NoMemory),
        Err(_) => Err(WordsRefusal::Usage),
    }
}
