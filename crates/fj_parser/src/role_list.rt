//! What the tokens of a project's text are, with their places.

ghost use Rattle.std.specs.Prelude.{◌≡◌, ℕ, [], IfOk, OnOk, Err};
ghost use Rattle.std.specs.Str.{IsUtf8};
ghost use Rattle.cfj_model.specs.Faults.{IsFirstFault};
ghost use Rattle.cfj_model.specs.Languages.{IsTextOf, projects};
ghost use Rattle.cfj_model.specs.ProductLines.{ProductLine};
ghost use Rattle.cfj_model.specs.Roles.{nothing};
ghost use Rattle.fj_machine.specs.MachineViews.{machine_seen};
ghost use Rattle.fj_machine.specs.Readers.{SettlesEach};
ghost use Rattle.fj_parser.specs.Answers.{IsRead, IsRefusedAs};
ghost use Rattle.fj_parser.specs.Counting.{Counted};
ghost use Rattle.fj_parser.specs.Ending.{IsStopped};
ghost use Rattle.fj_parser.specs.GoalViews.{met_of, reader_of};
ghost use Rattle.fj_parser.specs.Goals.{start_for};
ghost use Rattle.fj_parser.specs.Listing.{IsListed, IsListedTo};
ghost use Rattle.fj_parser.specs.TokenRoles.{AreRolesOf};
ghost use Rattle.fj_tally.specs.Views.{tally_seen};

use crate::goal::Goal;
use crate::part::Part;
use crate::reading::{fault_of, first_fault, take};
use crate::token_role::{TokenRole, add_settled};
use crate::waiting::Waiting;
use cfj_model::ParseFault;
use fj_lexer::Lexer;
use fj_machine::Machine;
use fj_symbols::{Symbol, symbol_of};
use fj_tally::Tally;
use std::alloc::Global;

/// Reads the tokens of a text to its end, and lists them.
fn list_tokens<'a>(
    alloc: Global,
    part: Part<'a>,
    lexer: &mut Lexer<'a>,
    machine: &mut Machine<'a>,
    tally: &mut Tally<'a>,
    list: &mut Vec<TokenRole<'a>>,
) -> Result<(), ParseFault>
    requires utf8 { IsUtf8 lexer.old.text.now }
    requires settles { SettlesEach (reader_of part) }
    requires listed { IsListed (met_of part) (reader_of part) lexer.old.text.now lexer.old.rest.now (machine_seen machine.old) (tally_seen tally.old) [] list.old.items }
    requires counted { Counted (machine_seen machine.old) (tally_seen tally.old) }
    ensures read { OnOk result (IsListedTo (met_of part.entry) (reader_of part.entry) lexer.old.text.now (machine_seen machine.new) list.new.items) }
    ensures fault { (at : ℕ) (kind : _) → result ≡ Err (ParseFault.At at kind) → IsStopped (met_of part.entry) (reader_of part.entry) lexer.old.text.now at kind }
{
    let mut waiting = Waiting::Nothing;
    'tokens: while let Some(next) = lexer.next() {
        let token = match next {
            Ok(token) => token,
            Err(fault) => return Err(fault_of(first_fault(alloc, tally, waiting, fault)?)),
        };
        let symbol = symbol_of(token);
        add_settled(list, machine, waiting, symbol, token.at)?;
        take(alloc, &part, machine, tally, &mut waiting, symbol, token.at)?;
    }
    // The end is no token of the list.
    take(
        alloc,
        &part,
        machine,
        tally,
        &mut waiting,
        Symbol::End,
        lexer.text.len(),
    )
}

/// Reads a whole text by a machine that stands before the first token, and a tally in which nothing is met.
fn list_on<'a>(
    alloc: Global,
    part: Part<'a>,
    text: &'a str,
    machine: &mut Machine<'a>,
    tally: &mut Tally<'a>,
    list: &mut Vec<TokenRole<'a>>,
) -> Result<(), ParseFault>
    requires settles { SettlesEach (reader_of part) }
    requires start { machine_seen machine.old ≡ start_for part.goal part.format part.features.now part.class.now }
    requires nothing { tally_seen tally.old ≡ nothing }
    requires empty { list.old.items ≡ [] }
    ensures read { OnOk result (IsListedTo (met_of part.entry) (reader_of part.entry) text.entry.now (machine_seen machine.new) list.new.items) }
    ensures fault { (at : ℕ) (kind : _) → result ≡ Err (ParseFault.At at kind) → IsStopped (met_of part.entry) (reader_of part.entry) text.entry.now at kind }
{
    let mut lexer = Lexer::new(text);
    part.count_features(tally)?;
    list_tokens(alloc, part, &mut lexer, machine, tally, list)
}

/// Lists the tokens of a project's text.
fn list_project<'a>(
    alloc: Global,
    text: &'a str,
    list: &mut Vec<TokenRole<'a>>,
) -> Result<(), ParseFault>
    requires { list.old.items ≡ [] }
    ensures read { OnOk result (AreRolesOf projects text.entry.now list.new.items) }
    ensures fault { (at : ℕ) (kind : _) → result ≡ Err (ParseFault.At at kind) → IsFirstFault projects text.entry.now at kind }
{
    let part = Part::alone(Goal::Project);
    let mut machine = part.boxed(alloc)?;
    let mut tally = Box::new(alloc, Tally::new(alloc))?;
    list_on(alloc, part, text, &mut machine, &mut tally, list)
}

fn read_roles<'a>(alloc: Global, text: &'a str) -> Result<Vec<TokenRole<'a>>, ParseFault>
    ensures read { IfOk result (λ list. AreRolesOf projects text.entry.now list.items) }
    ensures fault { (at : ℕ) (kind : _) → result ≡ Err (ParseFault.At at kind) → IsFirstFault projects text.entry.now at kind }
{
    let mut list = Vec::new(alloc);
    list_project(alloc, text, &mut list)?;
    Ok(list)
}

/// What each token of a project's text is there, with its place, in the order of the text; or the text's first fault.
pub fn token_roles<'a>(alloc: Global, text: &'a str) -> Result<Vec<TokenRole<'a>>, ParseFault>
    // The text is one of the grammar and these are its tokens, and of every text of the grammar they are told.
    ensures read { IfOk result (λ list. AreRolesOf projects text.entry.now list.items) }
    ensures only { (line : ProductLine) → IsTextOf projects text.entry.now line → IsRead result }
    // A fault is the first one, and every first fault is told.
    ensures fault { (at : ℕ) (kind : _) → result ≡ Err (ParseFault.At at kind) → IsFirstFault projects text.entry.now at kind }
    ensures first { (at : ℕ) (kind : _) → IsFirstFault projects text.entry.now at kind → IsRefusedAs at kind result }
{
    read_roles(alloc, text)
}
