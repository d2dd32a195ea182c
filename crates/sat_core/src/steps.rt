//! The steps of a search.

ghost use Rattle.std.specs.Prelude.{◌≡◌, ◌+◌, ◌<◌, ◌≤◌, ◌++◌, ◌∷◌, [], length, take, false, IfOk, OnOk};
ghost use Rattle.cfj_logic.specs.Sides.{is_empty};
ghost use Rattle.cfj_logic.specs.Logs.{AreWellFormed, IsEntry, literals as literals_of};
ghost use Rattle.unit_propagation.specs.Falsified.{IsFalsifiedAt};
ghost use Rattle.unit_propagation.specs.Trails.{values_after};
ghost use Rattle.clause_learning.specs.Decided.{AreBelowIn, IsLastDecision};
ghost use Rattle.sat_core.specs.States.{IsLearned, IsOnTrail, Follows, Decides, AreFree};

use cfj_logic::{Clauses, Literal, Log};
use clause_learning::{Learned, Step, analyze};
use refutation_check::literals;
use std::alloc::{AllocError, Global};
use unit_propagation::WatchedClauses;

/// Follows the values by unit clauses, until a clause is falsified, whose place is the result, or all are open.
pub(crate) fn follow(
    alloc: Global,
    clauses: &Clauses,
    log: &Log,
    premises: &mut WatchedClauses,
    values: &mut Vec<Option<bool>>,
    trail: &mut Vec<Step>,
) -> Result<Option<usize>, AllocError>
    requires formed { AreWellFormed clauses.now }
    requires known { IsLearned clauses.now log.now premises.old }
    requires along { IsOnTrail clauses.now premises.old values.old.items trail.old.items }
    ensures { IfOk result (λ found. Follows clauses.now premises.old premises.new values.old.items values.new.items trail.new.items found) }
{
    premises.extend(alloc, values.as_mut_slice(), trail)
}

/// Decides that a feature isn't selected.
pub(crate) fn decide(
    values: &mut Vec<Option<bool>>,
    trail: &mut Vec<Step>,
    feature: u8,
) -> Result<(), AllocError>
    requires { feature < length values.old.items }
    ensures { OnOk result (Decides values.old.items trail.old.items values.new.items trail.new.items feature) }
{
    values[feature as usize] = Some(false);
    trail.push(Step {
        literal: Literal {
            var: feature as u64,
            on: false,
        },
        cause: None,
    })?;
    Ok(())
}

/// Takes all steps from a place on back.
fn jump_back(values: &mut Vec<Option<bool>>, trail: &mut Vec<Step>, target: usize)
    requires below { AreBelowIn (length values.old.items) trail.old.items }
    requires free { AreFree (length values.old.items) trail.old.items }
    requires values { values.old.items ≡ values_after (length values.old.items) trail.old.items }
    requires target { target ≤ length trail.old.items }
    ensures trail { trail.new.items ≡ take target trail.old.items }
    ensures values { values.new.items ≡ values_after (length values.old.items) (take target trail.old.items) }
{
    'steps: while trail.len() > target {
        match trail.pop() {
            Some(step) => values[step.literal.var as usize] = None,
            None => unreachable!(),
        }
    }
}

/// Logs a clause that a conflict taught, and puts it to the premises.
fn log_clause(
    alloc: Global,
    clauses: &Clauses,
    log: &mut Log,
    premises: &mut WatchedClauses,
    learned: &Learned,
) -> Result<(), AllocError>
    requires known { IsLearned clauses.now log.old premises.old }
    requires entry { IsEntry clauses.now log.old learned.now.clause }
    requires some { is_empty learned.now.clause ≡ false }
    ensures known { OnOk result (IsLearned clauses.now log.new premises.new) }
    ensures premises { OnOk result (premises.new ≡ premises.old ++ literals_of learned.now.clause ∷ []) }
    ensures longer { OnOk result (length log.new ≡ length log.old + 1) }
{
    let clause = learned.clause;
    let list = literals(alloc, &clause)?;
    premises.learn(list, learned.first, learned.second)?;
    log.push(clause)
}

/// Learns a clause from a conflict, logs it, and goes back to where all its literals but one are false.
pub(crate) fn learn(
    alloc: Global,
    clauses: &Clauses,
    log: &mut Log,
    premises: &mut WatchedClauses,
    values: &mut Vec<Option<bool>>,
    trail: &mut Vec<Step>,
    conflict: usize,
    decision: usize,
) -> Result<(), AllocError>
    requires formed { AreWellFormed clauses.now }
    requires known { IsLearned clauses.now log.old premises.old }
    requires along { IsOnTrail clauses.now premises.old values.old.items trail.old.items }
    requires conflict { IsFalsifiedAt premises.old values.old.items conflict }
    requires decision { IsLastDecision trail.old.items decision }
    ensures known { OnOk result (IsLearned clauses.now log.new premises.new) }
    ensures along { OnOk result (IsOnTrail clauses.now premises.new values.new.items trail.new.items) }
    ensures longer { OnOk result (length log.new ≡ length log.old + 1) }
{
    let learned = analyze(
        alloc,
        clauses.features,
        premises.clauses(),
        values.as_slice(),
        trail.as_slice(),
        conflict,
        decision,
    )?;
    log_clause(alloc, clauses, log, premises, &learned)?;
    jump_back(values, trail, learned.target);
    Ok(())
}
