//! Reads a whole text, from its first token to its end.

ghost use Rattle.std.specs.Prelude.{◌≡◌, ℕ, [], true, None, Some, IfOk, Ok, Err, OnOk};
ghost use Rattle.std.specs.Str.{IsUtf8};
ghost use Rattle.fj_parser.specs.Accepting.{IsTaken, IsTold, IsToldAt};
ghost use Rattle.fj_parser.specs.Counting.{Counted};
ghost use Rattle.fj_parser.specs.Ending.{IsReadTo, IsStopped};
ghost use Rattle.fj_parser.specs.GoalViews.{met_of, reader_of};
ghost use Rattle.fj_parser.specs.Goals.{start_for};
ghost use Rattle.fj_machine.specs.Machine.{pending};
ghost use Rattle.fj_machine.specs.MachineViews.{machine_seen, IsRoomy};
ghost use Rattle.fj_machine.specs.Readers.{IsReached, SettlesEach};
ghost use Rattle.fj_parser.specs.Reading.{IsPlaced, fault_kind, fault_place};
ghost use Rattle.fj_parser.specs.Waiting.{waiting_places, waiting_roles};
ghost use Rattle.cfj_model.specs.Roles.{nothing};
ghost use Rattle.fj_tally.specs.Views.{tally_seen};
ghost use Rattle.fj_symbols.specs.Views.{is_read, symbol_seen};

use crate::accept::accept;
use crate::part::Part;
use crate::settle::settle;
use crate::waiting::{Refusal, Waiting};
use cfj_model::{FaultKind, ParseFault};
use expression_reader::Settling;
use fj_lexer::{LexFault, Lexer};
use fj_machine::Machine;
use fj_symbols::{Symbol, symbol_of};
use fj_tally::Tally;
use std::alloc::{AllocError, Global};

/// The lexer's fault.
fn lexical(fault: LexFault) -> Refusal
    ensures place { result.at ≡ fault_place fault }
    ensures kind { result.kind ≡ fault_kind fault }
{
    match fault {
        LexFault::BadChar(at) => Refusal {
            at,
            kind: FaultKind::BadChar,
        },
        LexFault::OpenComment(at) => Refusal {
            at,
            kind: FaultKind::OpenComment,
        },
    }
}

/// The first fault where the lexer has one: what waits stands before it, and can't become a cast's.
pub fn first_fault<'a>(
    alloc: Global,
    tally: &mut Tally<'a>,
    waiting: Waiting<'a>,
    fault: LexFault,
) -> Result<Refusal, AllocError>
    ensures { IfOk result (λ told. IsTold (tally_seen tally.old) (waiting_roles waiting.entry) (waiting_places waiting.entry) fault told.at told.kind) }
{
    match settle(alloc, tally, waiting, Settling::Bracket)? {
        Some(refusal) => Ok(refusal),
        None => Ok(lexical(fault)),
    }
}

pub fn fault_of(refusal: Refusal) -> ParseFault
    ensures { result ≡ ParseFault.At refusal.at refusal.kind }
{
    let Refusal { at, kind } = refusal;
    ParseFault::At { at, kind }
}

/// Takes one token in, or tells the first fault and its place.
pub fn take<'a>(
    alloc: Global,
    part: &Part<'a>,
    machine: &mut Machine<'a>,
    tally: &mut Tally<'a>,
    waiting: &mut Waiting<'a>,
    symbol: Symbol<'a>,
    at: usize,
) -> Result<(), ParseFault>
    requires read { is_read (symbol_seen symbol) ≡ true }
    requires waiting { waiting_roles waiting.old ≡ pending (machine_seen machine.old) }
    requires settles { SettlesEach (reader_of part.now) }
    requires reached { IsReached (reader_of part.now) (machine_seen machine.old) }
    requires room { IsRoomy (machine_seen machine.old) }
    ensures ok { OnOk result (IsTaken (reader_of part.now) (machine_seen machine.old) (tally_seen tally.old) (waiting_places waiting.old)
        (symbol_seen symbol.entry) at (machine_seen machine.new) (tally_seen tally.new) (waiting_roles waiting.new) (waiting_places waiting.new)) }
    ensures fault { (told : ℕ) (kind : _) → result ≡ Err (ParseFault.At told kind) → IsToldAt (reader_of part.now) (machine_seen machine.old) (tally_seen tally.old)
        (waiting_places waiting.old) (symbol_seen symbol.entry) at told kind }
{
    match accept(alloc, part, machine, tally, waiting, symbol, at)? {
        Some(refusal) => Err(fault_of(refusal)),
        None => Ok(()),
    }
}

/// Reads the tokens of a text to its end.
fn read_tokens<'a>(
    alloc: Global,
    part: Part<'a>,
    lexer: &mut Lexer<'a>,
    machine: &mut Machine<'a>,
    tally: &mut Tally<'a>,
) -> Result<(), ParseFault>
    requires utf8 { IsUtf8 lexer.old.text.now }
    requires settles { SettlesEach (reader_of part) }
    requires placed { IsPlaced (met_of part) (reader_of part) lexer.old.text.now lexer.old.rest.now (machine_seen machine.old) (tally_seen tally.old) [] }
    requires counted { Counted (machine_seen machine.old) (tally_seen tally.old) }
    ensures read { OnOk result (IsReadTo (met_of part.entry) (reader_of part.entry) lexer.old.text.now (machine_seen machine.new)) }
    ensures fault { (at : ℕ) (kind : _) → result ≡ Err (ParseFault.At at kind) → IsStopped (met_of part.entry) (reader_of part.entry) lexer.old.text.now at kind }
{
    let mut waiting = Waiting::Nothing;
    'tokens: while let Some(next) = lexer.next() {
        let token = match next {
            Ok(token) => token,
            Err(fault) => return Err(fault_of(first_fault(alloc, tally, waiting, fault)?)),
        };
        take(
            alloc,
            &part,
            machine,
            tally,
            &mut waiting,
            symbol_of(token),
            token.at,
        )?;
    }
    take(
        alloc,
        &part,
        machine,
        tally,
        &mut waiting,
        Symbol::End,
        lexer.text.len(),
    )
}

/// Reads a whole text by a machine that stands before the first token, and a tally in which nothing is met.
fn read_on<'a>(
    alloc: Global,
    part: Part<'a>,
    text: &'a str,
    machine: &mut Machine<'a>,
    tally: &mut Tally<'a>,
) -> Result<(), ParseFault>
    requires settles { SettlesEach (reader_of part) }
    requires start { machine_seen machine.old ≡ start_for part.goal part.format part.features.now part.class.now }
    requires nothing { tally_seen tally.old ≡ nothing }
    ensures read { OnOk result (IsReadTo (met_of part.entry) (reader_of part.entry) text.entry.now (machine_seen machine.new)) }
    ensures fault { (at : ℕ) (kind : _) → result ≡ Err (ParseFault.At at kind) → IsStopped (met_of part.entry) (reader_of part.entry) text.entry.now at kind }
{
    let mut lexer = Lexer::new(text);
    part.count_features(tally)?;
    read_tokens(alloc, part, &mut lexer, machine, tally)
}

/// Reads a whole text: the machine behind its end, or the first fault.
pub fn read_text<'a>(
    alloc: Global,
    part: Part<'a>,
    text: &'a str,
) -> Result<Box<Machine<'a>>, ParseFault>
    requires { SettlesEach (reader_of part) }
    ensures read { IfOk result (λ machine. IsReadTo (met_of part.entry) (reader_of part.entry) text.entry.now (machine_seen machine.value)) }
    ensures fault { (at : ℕ) (kind : _) → result ≡ Err (ParseFault.At at kind) → IsStopped (met_of part.entry) (reader_of part.entry) text.entry.now at kind }
{
    let mut machine = part.boxed(alloc)?;
    // In a box too, so that it drops in one step on each way out.
    let mut tally = Box::new(alloc, Tally::new(alloc))?;
    read_on(alloc, part, text, &mut machine, &mut tally)?;
    Ok(machine)
}
