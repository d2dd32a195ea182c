//! Resolving along a trail.

ghost use Rattle.std.specs.Prelude.{◌≡◌, ◌<◌, ◌≤◌, ◌⊎◌, ℕ, length, slice_get, IsTrue, IfSome, IfNone, Some, None};
ghost use Rattle.unit_propagation.specs.declared.trail.Step.{Step as TrailStep};
ghost use Rattle.unit_propagation.specs.Trails.{values_after};
ghost use Rattle.clause_learning.specs.Decided.{AreBelowIn, IsTrail, IsLastDecision, IsValued};
ghost use Rattle.clause_learning.specs.Denials.{IsMarked, AreUnmarked, Denies, Resolves, LeavesOne, LeavesFeatures};

use crate::marks::{is_marked_at, none_marked, resolve};
use cfj_logic::Literal;
use cfj_words::Items;
use unit_propagation::Step;

/// The literals of the clause at this place.
pub(crate) fn literals_at(clauses: &[Items<Literal>], place: usize) -> &[Literal]
    requires { place < length clauses.now }
    ensures { slice_get clauses.now place ≡ Some result.now }
{
    clauses[place].slice()
}

/// Resolves the marked variables' literals with the clause that the step at this place is the unit literal of.
fn resolve_at(
    features: u8,
    clauses: &[Items<Literal>],
    trail: &[Step],
    place: usize,
    cause: usize,
    marks: &mut [bool],
)
    requires place { place < length trail.now }
    requires trail { IsTrail clauses.now features (length marks.old) trail.now }
    requires cause { (s : TrailStep) → slice_get trail.now place ≡ Some s → s.cause ≡ Some cause }
    requires denies { Denies clauses.now (values_after (length marks.old) trail.now) marks.old }
    ensures denies { Denies clauses.now (values_after (length marks.old) trail.now) marks.new }
    ensures resolves { Resolves (length marks.old) trail.now place marks.old marks.new }
{
    resolve(marks, literals_at(clauses, cause), trail[place].literal);
}

/// Whether the step's variable is a feature, and no other that is marked stands behind the last decision.
fn is_alone(features: u8, marks: &[bool], trail: &[Step], decision: usize, place: usize) -> bool
    requires place { place < length trail.now }
    requires below { AreBelowIn (length marks.now) trail.now }
    ensures feature { IsTrue result → (s : TrailStep) → slice_get trail.now place ≡ Some s → s.literal.var < features }
    ensures unmarked { IsTrue result → AreUnmarked marks.now trail.now decision place }
{
    trail[place].literal.var < features as u64 && none_marked(marks, trail, decision, place)
}

/// The place of the clause to resolve with at a step of the trail, if it isn't the one that is to be left.
fn cause_to_resolve(
    features: u8,
    marks: &[bool],
    trail: &[Step],
    decision: usize,
    place: usize,
) -> Option<usize>
    requires place { place < length trail.now }
    requires below { AreBelowIn (length marks.now) trail.now }
    ensures some { IfSome result (λ cause. (s : TrailStep) → slice_get trail.now place ≡ Some s → s.cause ≡ Some cause) }
    ensures none { IfNone result ((s : TrailStep) → slice_get trail.now place ≡ Some s → (s.cause ≡ None) ⊎ ((s.literal.var < features) × AreUnmarked marks.now trail.now decision place)) }
{
    if is_alone(features, marks, trail, decision, place) {
        return None;
    }
    trail[place].cause
}

/// Resolves from the end of the trail down, until one marked variable is left behind the last decision, and is a feature.
pub(crate) fn resolve_last(
    features: u8,
    clauses: &[Items<Literal>],
    trail: &[Step],
    decision: usize,
    marks: &mut [bool],
)
    requires trail { IsTrail clauses.now features (length marks.old) trail.now }
    requires decision { IsLastDecision trail.now decision }
    requires denies { Denies clauses.now (values_after (length marks.old) trail.now) marks.old }
    requires valued { (x : ℕ) → IsMarked marks.old x → IsValued (values_after (length marks.old) trail.now) x }
    ensures denies { Denies clauses.now (values_after (length marks.old) trail.now) marks.new }
    ensures one { LeavesOne features (length marks.old) trail.now decision marks.new }
{
    let mut place = trail.len();
    'steps: while place > decision {
        place -= 1;
        if !is_marked_at(marks, trail, place) {
            continue;
        }
        match cause_to_resolve(features, marks, trail, decision, place) {
            Some(cause) => resolve_at(features, clauses, trail, place, cause, marks),
            None => return,
        }
    }
}

/// The place of the clause to resolve with at a step whose variable is marked and no feature.
fn cause_of_gate(features: u8, marks: &[bool], trail: &[Step], place: usize) -> Option<usize>
    requires place { place < length trail.now }
    requires below { AreBelowIn (length marks.now) trail.now }
    ensures some { IfSome result (λ cause. (s : TrailStep) → slice_get trail.now place ≡ Some s → (s.cause ≡ Some cause) × (features ≤ s.literal.var)) }
    ensures none { IfNone result ((s : TrailStep) → slice_get trail.now place ≡ Some s → IsMarked marks.now s.literal.var → (s.literal.var < features) ⊎ (s.cause ≡ None)) }
{
    if trail[place].literal.var < features as u64 || !is_marked_at(marks, trail, place) {
        return None;
    }
    trail[place].cause
}

/// Resolves the marked variables that stand before the last decision and are no features.
pub(crate) fn resolve_others(
    features: u8,
    clauses: &[Items<Literal>],
    trail: &[Step],
    decision: usize,
    marks: &mut [bool],
)
    requires trail { IsTrail clauses.now features (length marks.old) trail.now }
    requires decision { decision < length trail.now }
    requires denies { Denies clauses.now (values_after (length marks.old) trail.now) marks.old }
    requires one { LeavesOne features (length marks.old) trail.now decision marks.old }
    ensures denies { Denies clauses.now (values_after (length marks.old) trail.now) marks.new }
    ensures features { LeavesFeatures features (length marks.old) trail.now decision marks.new }
{
    let mut place = decision;
    'steps: while place > 0 {
        place -= 1;
        match cause_of_gate(features, marks, trail, place) {
            Some(cause) => resolve_at(features, clauses, trail, place, cause, marks),
            None => {}
        }
    }
}
