//! Checking refutations, and proofs that a selection is the least.

ghost use Rattle.std.specs.Prelude.{◌≡◌, ◌↔◌, ◌++◌, ◌∷◌, [], false, ◌≤◌, ◌<◌, length, All, IsTrue, IfOk, OnOk};
ghost use Rattle.cfj_logic.specs.Selections.{choices as choices_of};
ghost use Rattle.cfj_logic.specs.UnitClauses.{Leads};
ghost use Rattle.cfj_logic.specs.Logs.{AreBelow, AreWellFormed, AreSettledByFeatures, IsRefutation, IsProofOfLeast, ExtendsToModel, IsForcedAt, AreForced, fixed};

use crate::accepted::{accepted, holds_empty};
use crate::premises::{choices, fixed};
use cfj_logic::{Clauses, Log, Selection};
use std::alloc::{AllocError, Global};
use unit_propagation::WatchedClauses;

/// Whether the log is accepted and holds the empty clause, so that no assignment makes every clause true.
///
/// The only error is want of memory.
pub fn check_refutation(alloc: Global, clauses: &Clauses, log: &Log) -> Result<bool, AllocError>
    requires { AreWellFormed clauses.now }
    ensures { IfOk result (λ b. IsTrue b ↔ IsRefutation clauses.now log.now) }
{
    if !holds_empty(log.clauses()) {
        return Ok(false);
    }
    let mut premises = WatchedClauses::of(alloc, clauses.list.slice())?;
    accepted(alloc, clauses, log.clauses(), &mut premises)
}

/// Whether unit clauses lead from these values of the first variables to a falsified clause.
pub fn is_conflict(
    alloc: Global,
    vars: u64,
    premises: &mut WatchedClauses,
    prefix: &[bool],
) -> Result<bool, AllocError>
    requires premises { All (AreBelow vars) premises.old }
    requires prefix { length prefix.now ≤ vars }
    ensures leads { IfOk result (λ b. IsTrue b ↔ Leads premises.old (fixed vars prefix.now)) }
    ensures same { OnOk result (premises.new ≡ premises.old) }
{
    let mut values = fixed(alloc, vars, prefix)?;
    premises.propagate(alloc, values.as_mut_slice())
}

/// Whether the feature has to be selected, if it is: with those before it as they are, and it not selected, unit clauses lead to
/// a falsified clause.
fn is_forced(
    alloc: Global,
    vars: u64,
    premises: &mut WatchedClauses,
    choices: &[bool],
    feature: usize,
) -> Result<bool, AllocError>
    requires premises { All (AreBelow vars) premises.old }
    requires short { length choices.now ≤ vars }
    requires feature { feature < length choices.now }
    ensures forced { IfOk result (λ b. IsTrue b ↔ IsForcedAt vars premises.old choices.now feature) }
    ensures same { OnOk result (premises.new ≡ premises.old) }
{
    if !choices[feature] {
        return Ok(true);
    }
    let mut prefix = Vec::new(alloc);
    prefix.extend_from_slice(&choices[..feature])?;
    prefix.push(false)?;
    is_conflict(alloc, vars, premises, prefix.as_slice())
}

/// Whether each selected feature has to be.
fn are_forced(
    alloc: Global,
    vars: u64,
    premises: &mut WatchedClauses,
    choices: &[bool],
) -> Result<bool, AllocError>
    requires premises { All (AreBelow vars) premises.old }
    requires short { length choices.now ≤ vars }
    ensures { IfOk result (λ b. IsTrue b ↔ AreForced vars premises.old choices.now) }
{
    for feature in 0..choices.len() {
        if !is_forced(alloc, vars, premises, choices, feature)? {
            return Ok(false);
        }
    }
    Ok(true)
}

/// Whether the selection with these choices extends to a model.
pub(crate) fn extends(
    alloc: Global,
    clauses: &Clauses,
    premises: &mut WatchedClauses,
    choices: &[bool],
    selection: &Selection,
) -> Result<bool, AllocError>
    requires formed { AreWellFormed clauses.now }
    requires settled { AreSettledByFeatures clauses.now }
    requires premises { premises.old ≡ clauses.now.list }
    requires selection { (selection.now.features ≡ clauses.now.features) × (choices.now ≡ choices_of selection.now) }
    ensures extends { IfOk result (λ b. IsTrue b ↔ ExtendsToModel clauses.now selection.now) }
    ensures same { OnOk result (premises.new ≡ premises.old) }
{
    if is_conflict(alloc, clauses.vars, premises, choices)? {
        Ok(false)
    } else {
        Ok(true)
    }
}

/// Whether the log proves that the selection is the least that extends to a model.
///
/// The only error is want of memory.
pub fn check_least(
    alloc: Global,
    clauses: &Clauses,
    log: &Log,
    selection: &Selection,
) -> Result<bool, AllocError>
    requires formed { AreWellFormed clauses.now }
    requires settled { AreSettledByFeatures clauses.now }
    requires features { selection.now.features ≡ clauses.now.features }
    ensures { IfOk result (λ b. IsTrue b ↔ IsProofOfLeast clauses.now log.now selection.now) }
{
    let choices = choices(alloc, selection)?;
    let mut premises = WatchedClauses::of(alloc, clauses.list.slice())?;
    if !extends(alloc, clauses, &mut premises, choices.as_slice(), selection)? {
        return Ok(false);
    }
    if !accepted(alloc, clauses, log.clauses(), &mut premises)? {
        return Ok(false);
    }
    are_forced(alloc, clauses.vars, &mut premises, choices.as_slice())
}
