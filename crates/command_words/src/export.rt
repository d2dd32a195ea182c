//! The words of `export`.

ghost use Rattle.std.specs.Prelude.{◌≡◌, IfOk, option_map};
ghost use Rattle.clap.specs.Words.{app_of, found_of, rows_of};
ghost use Rattle.command_words.specs.Asked.{asked_export, export_command, export_of};
ghost use Rattle.command_words.specs.Reading.{texts, seen, IsAnswer};

use crate::asked::{Asked, WordsFault};
use crate::line::{matches_of, value_of};
use clap::{Arg, ArgMatches, Command};
use std::alloc::{AllocError, Global};

/// `export PROJECT NAMES`
fn export_command<'a>(alloc: Global) -> Result<Command<'a>, AllocError>
    ensures { IfOk result (λ command. app_of command ≡ export_command) }
{
    let project = Arg::new(alloc, "project").required(true);
    let names = Arg::new(alloc, "names").required(true);
    Command::new(alloc, "export").arg(project)?.arg(names)
}

/// What the matches of `export` ask.
fn export_of<'a>(matches: &ArgMatches<'a>) -> Option<Asked<'a>>
    ensures { option_map seen result ≡ export_of (rows_of (found_of matches.now)) }
{
    let project = value_of(matches, "project")?;
    let names = value_of(matches, "names")?;
    Some(Asked::Export { project, names })
}

/// What the words of `export` ask.
pub fn read_export<'a>(alloc: Global, words: &'a [String]) -> Result<Asked<'a>, WordsFault>
    ensures { IsAnswer (asked_export (texts words.now)) result }
{
    let Ok(command) = export_command(alloc) else {
        return Err(WordsFault::NoMemory);
    };
    let matches = matches_of(command, words)?;
    export_of(&matches).ok_or(WordsFault::NoCommand)
}
