//! A command line, as `clap` reads it.

ghost use Rattle.std.specs.Prelude.{◌≡◌, ◌↔◌, Err, IfOk, true, false, option_map};
ghost use Rattle.clap.specs.Words.{app_of, first_of, found_of, is_simple_and_free, kind_of, matches_of, rows_of};
ghost use Rattle.command_words.specs.Asked.{is_given, takes_words};
ghost use Rattle.command_words.specs.Reading.{texts};

use crate::asked::WordsFault;
use clap::error::ErrorKind;
use clap::{ArgMatches, Command, Error};
use std::alloc::Global;

/// What a refusal of `clap` says of the words.
fn fault_of(error: &Error) -> WordsFault
    ensures { (result ≡ WordsFault.NoMemory) ↔ (kind_of error.now ≡ ErrorKind.OutOfMemory) }
{
    match error.kind() {
        ErrorKind::OutOfMemory => WordsFault::NoMemory,
        _ => WordsFault::NoCommand,
    }
}

/// The matches that a simple command has on the words, of which the first is its name.
pub fn matches_of<'a>(
    command: Command<'a>,
    words: &'a [String],
) -> Result<ArgMatches<'a>, WordsFault>
    requires { is_simple_and_free (app_of command) ≡ true }
    ensures takes { IfOk result (λ _. takes_words (app_of command.entry) (texts words.now) ≡ true) }
    ensures rows { IfOk result (λ matches.
        rows_of (found_of matches) ≡ matches_of (app_of command.entry) (texts words.now)) }
    ensures none { result ≡ Err WordsFault.NoCommand
        → takes_words (app_of command.entry) (texts words.now) ≡ false }
{
    match command.try_get_matches_from(words) {
        Ok(matches) => Ok(matches),
        Err(error) => Err(fault_of(&error)),
    }
}

/// The value that an argument has.
pub fn value_of<'a>(matches: &ArgMatches<'a>, id: &str) -> Option<&'a str>
    ensures { option_map (λ text. text.now) result ≡ first_of id.now (rows_of (found_of matches.now)) }
{
    matches.get_str(id)
}

/// Whether a flag is given.
pub fn is_given(matches: &ArgMatches<'_>, flag: &str) -> bool
    ensures { result ≡ is_given flag.now (rows_of (found_of matches.now)) }
{
    matches!(value_of(matches, flag), Some("true"))
}
