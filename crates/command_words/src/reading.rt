//! The words of a run, from the first on.

ghost use Rattle.std.specs.Prelude.{◌≡◌, map, Some, None, Err, IfOk, string_bytes};
ghost use Rattle.command_words.specs.Asked.{asked, asked_of};
ghost use Rattle.command_words.specs.Reading.{texts, seen, IsAnswer, IsBounded};

use crate::asked::{Asked, WordsFault};
use crate::check::read_check;
use crate::export::read_export;
use std::alloc::Global;

/// What the words ask of the command with this name.
fn read_of<'a>(alloc: Global, command: &str, words: &'a [String]) -> Result<Asked<'a>, WordsFault>
    ensures { IsAnswer (asked_of command.now (texts words.now)) result }
{
    match command {
        "check" => read_check(alloc, words),
        "export" => read_export(alloc, words),
        _ => Err(WordsFault::NoCommand),
    }
}

/// What the words after the program's name ask.
///
/// [`WordsFault::NoCommand`] comes where they aren't a command's: the first names none, `clap` refuses them for another cause
/// than want of memory, or a number isn't one to five ASCII digits in its range.
pub fn read_words<'a>(alloc: Global, words: &'a [String]) -> Result<Asked<'a>, WordsFault>
    ensures asked { IfOk result (λ found. asked (map string_bytes words.now) ≡ Some (seen found)) }
    ensures budget { IfOk result IsBounded }
    ensures none { result ≡ Err WordsFault.NoCommand → asked (map string_bytes words.now) ≡ None }
{
    match words.first() {
        Some(command) => read_of(alloc, command.as_str(), words),
        None => Err(WordsFault::NoCommand),
    }
}
