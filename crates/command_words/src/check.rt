//! The words of `check`.

ghost use Rattle.std.specs.Prelude.{◌≡◌, IfOk, IfSome, option_map};
ghost use Rattle.clap.specs.Words.{app_of, found_of, rows_of};
ghost use Rattle.command_words.specs.Asked.{asked_check, check_command, check_of, judgement_of, migration_of};
ghost use Rattle.command_words.specs.Reading.{texts, seen, IsAnswer, IsBounded};

use crate::asked::{Asked, WordsFault};
use crate::line::{is_given, matches_of, value_of};
use crate::number::budget_of;
use clap::{Arg, ArgAction, ArgMatches, Command};
use std::alloc::{AllocError, Global};

/// `check PROJECT [--budget N] [--migrate]`
fn check_command<'a>(alloc: Global) -> Result<Command<'a>, AllocError>
    ensures { IfOk result (λ command. app_of command ≡ check_command) }
{
    let project = Arg::new(alloc, "project").required(true);
    let budget = Arg::new(alloc, "budget").long("budget");
    let migrate = Arg::new(alloc, "migrate")
        .long("migrate")
        .action(ArgAction::SetTrue);
    Command::new(alloc, "check")
        .arg(project)?
        .arg(budget)?
        .arg(migrate)
}

/// What the matches of `check` ask without `--migrate`, if its number is in its range.
fn judgement_of<'a>(matches: &ArgMatches<'a>) -> Option<Asked<'a>>
    ensures asked { option_map seen result ≡ judgement_of (rows_of (found_of matches.now)) }
    ensures bounded { IfSome result IsBounded }
{
    let project = value_of(matches, "project")?;
    let budget = budget_of(value_of(matches, "budget"))?;
    Some(Asked::Check { project, budget })
}

/// What the matches of `check` ask with `--migrate`, if there is no budget beside it.
fn migration_of<'a>(matches: &ArgMatches<'a>) -> Option<Asked<'a>>
    ensures asked { option_map seen result ≡ migration_of (rows_of (found_of matches.now)) }
    ensures bounded { IfSome result IsBounded }
{
    if value_of(matches, "budget").is_some() {
        return None;
    }
    let project = value_of(matches, "project")?;
    Some(Asked::Migrate { project })
}

/// What the matches of `check` ask.
///
/// That `--migrate` has no budget beside it is looked at here: were it a conflict of `clap`'s own, its definitions would say no more
/// which words are refused.
fn check_of<'a>(matches: &ArgMatches<'a>) -> Option<Asked<'a>>
    ensures asked { option_map seen result ≡ check_of (rows_of (found_of matches.now)) }
    ensures bounded { IfSome result IsBounded }
{
    if is_given(matches, "migrate") {
        migration_of(matches)
    } else {
        judgement_of(matches)
    }
}

/// What the words of `check` ask.
pub fn read_check<'a>(alloc: Global, words: &'a [String]) -> Result<Asked<'a>, WordsFault>
    ensures { IsAnswer (asked_check (texts words.now)) result }
{
    let Ok(command) = check_command(alloc) else {
        return Err(WordsFault::NoMemory);
    };
    let matches = matches_of(command, words)?;
    check_of(&matches).ok_or(WordsFault::NoCommand)
}
