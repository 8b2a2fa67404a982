// The words behind `make`.
ghost use Rattle.std.specs.Prelude.{codes, map, string_bytes, IfOk, IsTrue};
ghost use Rattle.command_words.specs.Command.{make_command as make_app};
ghost use Rattle.command_words.specs.Parse.{Parses};
ghost use Rattle.command_words.specs.Values.{is_number as number_test};
ghost use Rattle.command_words.specs.Make.{make_words_of, ReadsMakeWords, ReadsGiven};

use crate::command::make_command;
use crate::parse::{WordsRefusal, parse_words};
use crate::values::{is_number, read_number};
use clap::ArgMatches;
use std::alloc::Global;

/// What the words behind `make` ask for. The text is that of its word.
#[derive(Clone, Copy, Debug, PartialEq, Eq)]
pub struct MakeWords<'a> {
    /// The number that the system is made from.
    pub number: u32,
    /// The ticks, as they were given: 1 to 20 decimal digits.
    pub ticks: &'a str,
}

/// The words of both values, before they are checked.
#[derive(Clone, Copy)]
pub struct GivenWords<'a> {
    /// That of the number.
    pub number: &'a str,
    /// That of the ticks.
    pub ticks: &'a str,
}

/// Reads the words behind `make`, `NUMBER --ticks N` in either order, or with `--ticks=N`. Which words these are is what the
/// crate `clap` defines for a command of one positional argument and one option, both of them required. NUMBER is 1 to 20
/// decimal digits that write a number from 0 to 4,294,967,295, and N is 1 to 20 decimal digits; both may have leading zeros.
#[tactic(auto, unfolding(crate::specs::Make::make_words_of))]
pub fn read_make_words<'a>(
    alloc: Global,
    words: &'a [String],
) -> Result<MakeWords<'a>, WordsRefusal>
    ensures exact { ReadsMakeWords result (make_words_of (map string_bytes words.entry.now)) }
    ensures number { IfOk result (λ make. IsTrue (number_test make.ticks.now)) }
{
    let given = given_words(alloc, words)?;
    let number = match read_number(given.number.as_bytes()) {
        Some(number) => number,
        None => return Err(WordsRefusal::Usage),
    };
    if is_number(given.ticks.as_bytes()) {
        Ok(MakeWords {
            number,
            ticks: given.ticks,
        })
    } else {
        Err(WordsRefusal::Usage)
    }
}

// The words of both values, where the command takes them.
fn given_words<'a>(alloc: Global, words: &'a [String]) -> Result<GivenWords<'a>, WordsRefusal>
    ensures { ReadsGiven (map string_bytes words.entry.now) result }
{
    let matches = parse(alloc, words)?;
    let number = match matches.get_str("number") {
        Some(number) => number,
        None => return Err(WordsRefusal::Usage),
    };
    let ticks = match matches.get_str("ticks") {
        Some(ticks) => ticks,
        None => return Err(WordsRefusal::Usage),
    };
    Ok(GivenWords { number, ticks })
}

// The parse of the words.
fn parse<'a>(alloc: Global, words: &'a [String]) -> Result<ArgMatches<'a>, WordsRefusal>
    ensures { Parses make_app (codes "number") (map string_bytes words.entry.now) result }
{
    match make_command(alloc) {
        Ok(command) => parse_words(command, words),
        Err(_) => Err(WordsRefusal::NoMemory),
    }
}
