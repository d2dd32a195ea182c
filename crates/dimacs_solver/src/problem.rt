//! The problem of a text.

ghost use Rattle.std.specs.Prelude.{◌≡◌, ◌↔◌, ◌≤◌, [], All, IfOk, IfSome, IfNone, IsTrue, min};
ghost use Rattle.dimacs_solver.specs.Numbers as spec;
ghost use Rattle.cfj_logic.specs.Logs.{AreBelow, AreWellFormed};

use crate::text::read_text;
use cfj_logic::{Clauses, Literal};
use cfj_words::Items;
use sat_core::{Answer, solve};
use std::alloc::{AllocError, Global};
use std::mem;

/// The largest budget of a search.
const BUDGET: u32 = 20_000;

/// The literal of a number that isn't 0.
fn literal_of(number: i64) -> Literal
    ensures { result ≡ spec.literal_of number }
{
    Literal {
        var: number.unsigned_abs().saturating_sub(1),
        on: number > 0,
    }
}

/// Whether the number ends a clause.
fn is_end(number: i64) -> bool
    ensures { result ≡ spec.is_end number }
{
    number == 0
}

/// The clauses of the numbers, in which a 0 stands behind each.
pub(crate) fn clauses_of(alloc: Global, numbers: &[i64]) -> Result<Vec<Items<Literal>>, AllocError>
    ensures { IfOk result (λ list. list.items ≡ spec.clauses_from [] numbers.now) }
{
    let mut list = Vec::new(alloc);
    let mut clause = Vec::new(alloc);
    for number in numbers {
        if is_end(*number) {
            list.push(Items::of(mem::replace(&mut clause, Vec::new(alloc))))?;
        } else {
            clause.push(literal_of(*number))?;
        }
    }
    Ok(list)
}

/// Whether all variables of a clause are below a number.
fn is_below(vars: u64, clause: &[Literal]) -> bool
    ensures { IsTrue result ↔ AreBelow vars clause.now }
{
    for literal in clause {
        if literal.var >= vars {
            return false;
        }
    }
    true
}

/// Whether all variables of some clauses are below a number.
fn are_below(vars: u64, list: &[Items<Literal>]) -> bool
    ensures { IsTrue result ↔ All (AreBelow vars) list.now }
{
    for clause in list {
        if !is_below(vars, clause.slice()) {
            return false;
        }
    }
    true
}

/// The clauses as a problem over so many variables, the first of which are the features; nothing where a clause has another.
fn problem_over(vars: u64, list: Vec<Items<Literal>>) -> Option<Clauses>
    ensures formed { IfSome result (λ clauses. AreWellFormed clauses) }
    ensures problem { IfSome result (λ clauses. clauses ≡ record { features = min vars 128; vars = vars; list = list.items }) }
    ensures none { IfNone result (All (AreBelow vars) list.items → ⊥) }
{
    if !are_below(vars, list.as_slice()) {
        return None;
    }
    Some(Clauses {
        features: vars.min(128) as u8,
        vars,
        list: Items::of(list),
    })
}

/// The problem of a text; nothing where it is none.
pub(crate) fn read_problem(alloc: Global, text: &str) -> Result<Option<Clauses>, AllocError>
    ensures { IfOk result (λ found. IfSome found (λ clauses. AreWellFormed clauses)) }
{
    match read_text(alloc, text)? {
        None => Ok(None),
        Some(numbers) => {
            let list = clauses_of(alloc, numbers.list.as_slice())?;
            Ok(problem_over(numbers.vars, list))
        }
    }
}

/// What the solver answers, where each variable is a feature.
pub(crate) fn answer_to(alloc: Global, clauses: &Clauses) -> Result<Option<Answer>, AllocError>
    requires { AreWellFormed clauses.now }
{
    if clauses.vars != clauses.features as u64 {
        return Ok(None);
    }
    Ok(Some(solve(alloc, clauses, BUDGET)?))
}
