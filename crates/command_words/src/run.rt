// The words behind `run`.
ghost use Rattle.std.specs.Prelude.{◌≡◌, codes, map, string_bytes, IfOk, IsTrue};
ghost use Rattle.clap.specs.Words.{first_value, found_of};
ghost use Rattle.command_words.specs.Command.{run_command as run_app};
ghost use Rattle.command_words.specs.Parse.{Parses};
ghost use Rattle.outside_io.specs.Names.{is_name as name_test};
ghost use Rattle.command_words.specs.Values.{is_number as number_test};
ghost use Rattle.command_words.specs.Run.{run_words_of, is_true, ReadsRunWords, ReadsValues};

use crate::command::run_command;
use crate::parse::{WordsRefusal, parse_words};
use crate::values::{is_name, is_number};
use clap::ArgMatches;
use std::alloc::Global;

/// What the words behind `run` ask for. Both texts are those of the words.
#[derive(Clone, Copy, Debug, PartialEq, Eq)]
pub struct RunWords<'a> {
    /// The name of the system file.
    pub system: &'a str,
    /// The ticks, as they were given: 1 to 20 decimal digits.
    pub ticks: &'a str,
    /// Whether the hardware's lines are asked for.
    pub hardware: bool,
}

/// Reads the words behind `run`, `SYSTEM --ticks N` in either order, or with `--ticks=N`, and `--hardware` before, between
/// or behind these, or nowhere. Which words these are is what the crate `clap` defines for a command of one positional
/// argument and one option, both of them required, and one flag. SYSTEM is a name of 1 to 255 bytes, and N is 1 to 20
/// decimal digits.
#[tactic(auto, unfolding(crate::specs::Run::run_words_of))]
pub fn read_run_words<'a>(alloc: Global, words: &'a [String]) -> Result<RunWords<'a>, WordsRefusal>
    ensures exact { ReadsRunWords result (run_words_of (map string_bytes words.entry.now)) }
    ensures name { IfOk result (λ run. IsTrue (name_test run.system.now)) }
    ensures number { IfOk result (λ run. IsTrue (number_test run.ticks.now)) }
{
    let said = taken_words(alloc, words)?;
    if is_name(said.system.as_bytes()) && is_number(said.ticks.as_bytes()) {
        Ok(said)
    } else {
        Err(WordsRefusal::Usage)
    }
}

// The values of the words, where the command takes them.
fn taken_words<'a>(alloc: Global, words: &'a [String]) -> Result<RunWords<'a>, WordsRefusal>
    ensures { ReadsValues (map string_bytes words.entry.now) result }
{
    let matches = parse(alloc, words)?;
    let system = match matches.get_str("system") {
        Some(system) => system,
        None => return Err(WordsRefusal::Usage),
    };
    let ticks = match matches.get_str("ticks") {
        Some(ticks) => ticks,
        None => return Err(WordsRefusal::Usage),
    };
    Ok(RunWords {
        system,
        ticks,
        hardware: has_flag(&matches, "hardware"),
    })
}

// Whether a flag is among the words.
fn has_flag(matches: &ArgMatches<'_>, id: &str) -> bool
    ensures { result ≡ is_true (first_value (found_of matches.now) id.now) }
{
    match matches.get_str(id) {
        Some(text) => text == "true",
        None => false,
    }
}

// The parse of the words.
fn parse<'a>(alloc: Global, words: &'a [String]) -> Result<ArgMatches<'a>, WordsRefusal>
    ensures { Parses run_app (codes "system") (map string_bytes words.entry.now) result }
{
    match run_command(alloc) {
        Ok(command) => parse_words(command, words),
        Err(_) => Err(WordsRefusal::NoMemory),
    }
}
