//! The analysis of a conflict.

ghost use Rattle.std.specs.Prelude.{◌≡◌, ◌<◌, ◌≤◌, ℕ, length, slice_get, All, IfOk, IfSome, IfNone, Some, None};
ghost use Rattle.unit_propagation.specs.declared.trail.Step.{Step as TrailStep};
ghost use Rattle.unit_propagation.specs.Falsified.{IsFalsifiedAt};
ghost use Rattle.unit_propagation.specs.Trails.{values_after};
ghost use Rattle.cfj_logic.specs.Logs.{AreBelow};
ghost use Rattle.clause_learning.specs.Decided.{IsTrail, IsLastDecision, IsValued};
ghost use Rattle.clause_learning.specs.Denials.{IsMarked, Denies, LeavesFeatures, IsTaught, AreToWatch, negated};

use crate::chosen::denial;
use crate::marks::{mark_all, no_marks};
use crate::places::{last_marked, target_of};
use crate::resolution::{literals_at, resolve_last, resolve_others};
use cfj_logic::{Clause, Literal};
use cfj_words::Items;
use std::alloc::{AllocError, Global};
use unit_propagation::Step;

/// A clause that was learned, and what to do with it.
#[derive(Clone, Copy, Debug)]
pub struct Learned {
    /// The clause.
    pub clause: Clause,
    /// Its literal that had no value before the last decision; there always is one.
    pub first: Option<Literal>,
    /// Of its other literals the one that became false last, or `None` where there is no other.
    pub second: Option<Literal>,
    /// The length of the trail to go back to: of the decisions the place of the first before which all its literals but the
    /// first are false.
    pub target: usize,
}

/// The literal that the step at this place made false.
fn denied(trail: &[Step], place: Option<usize>) -> Option<Literal>
    requires { IfSome place (λ k. k < length trail.now) }
    ensures some { IfSome place (λ k. (s : TrailStep) → slice_get trail.now k ≡ Some s → result ≡ Some (negated s.literal)) }
    ensures none { IfNone place (result ≡ None) }
{
    match place {
        Some(place) => {
            let literal = trail[place].literal;
            Some(Literal {
                var: literal.var,
                on: !literal.on,
            })
        }
        None => None,
    }
}

/// The marks of the falsified clause's variables.
fn conflict_marks(
    alloc: Global,
    clauses: &[Items<Literal>],
    values: &[Option<bool>],
    conflict: usize,
) -> Result<Vec<bool>, AllocError>
    requires below { All (AreBelow (length values.now)) clauses.now }
    requires conflict { IsFalsifiedAt clauses.now values.now conflict }
    ensures denies { IfOk result (λ marks. Denies clauses.now values.now marks.items) }
    ensures valued { IfOk result (λ marks. (x : ℕ) → IsMarked marks.items x → IsValued values.now x) }
{
    let mut marks = no_marks(alloc, values.len())?;
    mark_all(&mut marks, literals_at(clauses, conflict));
    Ok(marks)
}

/// Resolves the marked variables' literals along the trail until features alone are left, and of those behind the last decision one.
fn resolve_all(
    features: u8,
    clauses: &[Items<Literal>],
    trail: &[Step],
    decision: usize,
    marks: &mut [bool],
)
    requires trail { IsTrail clauses.now features (length marks.old) trail.now }
    requires decision { IsLastDecision trail.now decision }
    requires denies { Denies clauses.now (values_after (length marks.old) trail.now) marks.old }
    requires valued { (x : ℕ) → IsMarked marks.old x → IsValued (values_after (length marks.old) trail.now) x }
    ensures denies { Denies clauses.now (values_after (length marks.old) trail.now) marks.new }
    ensures features { LeavesFeatures features (length marks.old) trail.now decision marks.new }
{
    resolve_last(features, clauses, trail, decision, marks);
    resolve_others(features, clauses, trail, decision, marks);
}

/// The clause that denies the marked variables' values, its literals to watch, and the place to go back to.
fn learned_of(
    features: u8,
    clauses: &[Items<Literal>],
    values: &[Option<bool>],
    trail: &[Step],
    decision: usize,
    marks: &[bool],
) -> Learned
    requires few { features ≤ 128 }
    requires values { values.now ≡ values_after (length values.now) trail.now }
    requires trail { IsTrail clauses.now features (length values.now) trail.now }
    requires decision { IsLastDecision trail.now decision }
    requires denies { Denies clauses.now values.now marks.now }
    requires features { LeavesFeatures features (length values.now) trail.now decision marks.now }
    ensures learned { IsTaught clauses.now features (length values.now) trail.now decision result.clause result.target }
    ensures watched { AreToWatch (length values.now) trail.now decision result.clause result.first result.second }
    ensures target { result.target ≤ decision }
{
    let first = last_marked(trail, marks, trail.len());
    let second = last_marked(trail, marks, decision);
    Learned {
        clause: denial(features, values, marks),
        first: denied(trail, first),
        second: denied(trail, second),
        target: target_of(trail, second, decision),
    }
}

/// The clause that a conflict teaches: its falsified clause, resolved along the trail until features alone are left, and of those
/// behind the last decision one; its two literals to watch; and where to go back to.
///
/// The only error is want of memory.
pub fn analyze(
    alloc: Global,
    features: u8,
    clauses: &[Items<Literal>],
    values: &[Option<bool>],
    trail: &[Step],
    conflict: usize,
    decision: usize,
) -> Result<Learned, AllocError>
    requires few { features ≤ 128 }
    requires values { values.now ≡ values_after (length values.now) trail.now }
    requires trail { IsTrail clauses.now features (length values.now) trail.now }
    requires conflict { IsFalsifiedAt clauses.now values.now conflict }
    requires decision { IsLastDecision trail.now decision }
    ensures learned { IfOk result (λ learned. IsTaught clauses.now features (length values.now) trail.now decision learned.clause learned.target) }
    ensures watched { IfOk result (λ learned. AreToWatch (length values.now) trail.now decision learned.clause learned.first learned.second) }
    ensures target { IfOk result (λ learned. learned.target ≤ decision) }
{
    let mut marks = conflict_marks(alloc, clauses, values, conflict)?;
    resolve_all(features, clauses, trail, decision, marks.as_mut_slice());
    let slice = marks.as_slice();
    Ok(learned_of(features, clauses, values, trail, decision, slice))
}
