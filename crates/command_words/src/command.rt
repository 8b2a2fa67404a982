// The commands, as `clap` reads their words.
ghost use Rattle.std.specs.Prelude.{codes, IfOk};
ghost use Rattle.command_words.specs.Command.{run_command as run_app, make_command as make_app, positional_rule, ticks_rule};
ghost use Rattle.command_words.specs.Parse.{IsBare, IsCommand, IsNeeded, Needs};

use clap::{Arg, ArgAction, Command};
use std::alloc::{AllocError, Global};

/// What reads the words behind `run`: one system, the option `--ticks` with its value, and the flag `--hardware`.
pub fn run_command<'a>(alloc: Global) -> Result<Command<'a>, AllocError>
    ensures { IfOk result (IsCommand run_app (codes "system")) }
{
    let hardware = Arg::new(alloc, "hardware")
        .long("hardware")
        .action(ArgAction::SetTrue);
    let needing = needing_command(alloc, "run", "system")?;
    let command = needing.arg(hardware)?;
    Ok(command)
}

/// What reads the words behind `make`: one number, and the option `--ticks` with its value.
pub fn make_command<'a>(alloc: Global) -> Result<Command<'a>, AllocError>
    ensures { IfOk result (IsCommand make_app (codes "number")) }
{
    let command = needing_command(alloc, "make", "number")?;
    Ok(command)
}

// A command with a positional argument and the option `--ticks`, which both must be there.
fn needing_command<'a>(alloc: Global, name: &'a str, id: &'a str) -> Result<Command<'a>, AllocError>
    ensures { IfOk result (Needs name.entry.now id.entry.now) }
{
    let positional = positional(alloc, id);
    let ticks = ticks_option(alloc);
    let command = bare_command(alloc, name).arg(positional)?.arg(ticks)?;
    Ok(command)
}

// A command without arguments, and with no flag for help or for a version.
fn bare_command<'a>(alloc: Global, name: &'a str) -> Command<'a>
    ensures { IsBare name.entry.now result }
{
    Command::new(alloc, name)
        .no_binary_name(true)
        .disable_help_flag(true)
        .disable_version_flag(true)
}

// A positional argument that must be there.
fn positional<'a>(alloc: Global, id: &'a str) -> Arg<'a>
    ensures { IsNeeded id.entry.now (positional_rule id.entry.now) result }
{
    Arg::new(alloc, id).action(ArgAction::Set).required(true)
}

// The option `--ticks` with its value, which must be there.
fn ticks_option<'a>(alloc: Global) -> Arg<'a>
    ensures { IsNeeded (codes "ticks") ticks_rule result }
{
    Arg::new(alloc, "ticks")
        .long("ticks")
        .action(ArgAction::Set)
        .required(true)
}
