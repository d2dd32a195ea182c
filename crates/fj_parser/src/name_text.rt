//! The text of a name.

ghost use Rattle.std.specs.Prelude.{◌≡◌, ℕ, true, List, IfOk, Err};
ghost use Rattle.cfj_model.specs.Faults.{IsFirstFault};
ghost use Rattle.cfj_model.specs.Languages.{IsTextOf};
ghost use Rattle.cfj_words.specs.Names.{is_name, is_short_identifier};
ghost use Rattle.fj_parser.specs.Answers.{IsReadAs, IsRefusedAs};
ghost use Rattle.cfj_model.specs.PartLanguages.{names};

use crate::goal::Goal;
use crate::part::Part;
use crate::reading::read_text;
use crate::results::into_name;
use cfj_model::{FaultKind, Name, ParseFault};
use fj_symbols::name_of;
use std::alloc::Global;

fn read_word<'a>(alloc: Global, text: &'a str) -> Result<&'a str, ParseFault>
    ensures read { IfOk result (λ word. IsTextOf names text.entry.now word.now) }
    ensures named { IfOk result (λ word. is_name word.now ≡ true) }
    ensures fault { (at : ℕ) (kind : _) → result ≡ Err (ParseFault.At at kind) → IsFirstFault names text.entry.now at kind }
{
    let machine = read_text(alloc, Part::alone(Goal::Name), text)?;
    Ok(into_name(machine))
}

fn read_name(alloc: Global, text: &str) -> Result<Name, ParseFault>
    ensures read { IfOk result (λ name. IsTextOf names text.now name) }
    ensures fault { (at : ℕ) (kind : _) → result ≡ Err (ParseFault.At at kind) → IsFirstFault names text.now at kind }
{
    let word = read_word(alloc, text)?;
    Ok(name_of(alloc, word)?)
}

/// The name that a text stands for, or the text's first fault.
pub fn parse_name(alloc: Global, text: &str) -> Result<Name, ParseFault>
    // What is read is the value of a text of the grammar, and every text of the grammar is read.
    ensures read { IfOk result (λ name. IsTextOf names text.now name) }
    ensures only { (name : List ℕ) → IsTextOf names text.now name → IsReadAs name result }
    // A project keeps it, as the name of a class, a field or a method or as a word that uses one.
    ensures kept { IfOk result (λ name. is_short_identifier name ≡ true) }
    // A fault is the first one, and every first fault is told.
    ensures fault { (at : ℕ) (kind : _) → result ≡ Err (ParseFault.At at kind) → IsFirstFault names text.now at kind }
    ensures first { (at : ℕ) (kind : _) → IsFirstFault names text.now at kind → IsRefusedAs at kind result }
{
    read_name(alloc, text)
}
