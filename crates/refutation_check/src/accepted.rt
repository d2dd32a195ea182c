//! Which clauses a log may have.

ghost use Rattle.std.specs.Prelude.{◌≡◌, ◌↔◌, ◌++◌, map, length, All, IsTrue, IfOk, OnOk, IfSome, IfNone};
ghost use Rattle.std.specs.List.{list_any};
ghost use Rattle.cfj_logic.specs.Sides.{is_within, is_empty};
ghost use Rattle.cfj_logic.specs.Logs.{AreBelow, AreWellFormed, IsEntry, IsAccepted, Follows, literals, premises as premises_of};

use crate::premises::{assumed, literals};
use cfj_logic::{Clause, Clauses, Literal};
use cfj_words::Items;
use std::alloc::{AllocError, Global};
use unit_propagation::WatchedClauses;

/// Whether the clause contains all literals of one of these.
pub fn is_known(before: &[Clause], clause: &Clause) -> bool
    ensures { result ≡ list_any (λ d. is_within d clause.now) before.now }
{
    before.iter().any(|earlier| earlier.is_within(clause))
}

/// Whether one of the clauses is empty.
pub(crate) fn holds_empty(log: &[Clause]) -> bool
    ensures { result ≡ list_any is_empty log.now }
{
    log.iter().any(|clause| clause.is_empty())
}

/// Whether the clause follows from the premises.
fn follows(
    alloc: Global,
    vars: u64,
    premises: &mut WatchedClauses,
    clause: &[Literal],
) -> Result<bool, AllocError>
    requires premises { All (AreBelow vars) premises.old }
    requires clause { AreBelow vars clause.now }
    ensures follows { IfOk result (λ b. IsTrue b ↔ Follows vars premises.old clause.now) }
    ensures same { OnOk result (premises.new ≡ premises.old) }
{
    let mut values = assumed(alloc, vars, clause)?;
    premises.propagate(alloc, values.as_mut_slice())
}

/// The clause's literals, where it may be logged behind these; else nothing.
fn entry(
    alloc: Global,
    clauses: &Clauses,
    before: &[Clause],
    premises: &mut WatchedClauses,
    clause: &Clause,
) -> Result<Option<Items<Literal>>, AllocError>
    requires formed { AreWellFormed clauses.now }
    requires premises { premises.old ≡ premises_of clauses.now before.now }
    requires below { All (AreBelow clauses.now.vars) premises.old }
    ensures some { IfOk result (λ o. IfSome o (λ list. (list ≡ literals clause.now) × IsEntry clauses.now before.now clause.now)) }
    ensures none { IfOk result (λ o. IfNone o (IsEntry clauses.now before.now clause.now → ⊥)) }
    ensures same { OnOk result (premises.new ≡ premises.old) }
{
    if !clause.is_over(clauses.features) {
        return Ok(None);
    }
    if is_known(before, clause) {
        return Ok(None);
    }
    let list = literals(alloc, clause)?;
    if follows(alloc, clauses.vars, premises, list.slice())? {
        Ok(Some(list))
    } else {
        Ok(None)
    }
}

/// Whether the log is accepted; where it is, its clauses join the premises.
pub(crate) fn accepted(
    alloc: Global,
    clauses: &Clauses,
    log: &[Clause],
    premises: &mut WatchedClauses,
) -> Result<bool, AllocError>
    requires formed { AreWellFormed clauses.now }
    requires premises { premises.old ≡ clauses.now.list }
    ensures accepted { IfOk result (λ b. IsTrue b ↔ IsAccepted clauses.now log.now) }
    ensures premises { IfOk result (λ b. IsTrue b → premises.new ≡ premises_of clauses.now log.now) }
{
    for (place, clause) in log.iter().enumerate() {
        match entry(alloc, clauses, &log[..place], premises, clause)? {
            None => return Ok(false),
            Some(list) => premises.push(list)?,
        }
    }
    Ok(true)
}
