//! Places on trails.

ghost use Rattle.std.specs.Prelude.{◌≡◌, ◌<◌, ◌≤◌, ◌⊎◌, ℕ, length, slice_get, IfSome, IfNone, Some, None};
ghost use Rattle.unit_propagation.specs.declared.trail.Step.{Step as TrailStep};
ghost use Rattle.clause_learning.specs.Decided.{AreBelowIn, AreCaused, IsLastDecision};
ghost use Rattle.clause_learning.specs.Denials.{AreUnmarked, IsLastMarked};

use crate::marks::is_marked_at;
use unit_propagation::Step;

/// The place of the last decision.
pub fn last_decision(trail: &[Step]) -> Option<usize>
    ensures some { IfSome result (λ place. IsLastDecision trail.now place) }
    ensures none { IfNone result (AreCaused trail.now 0) }
{
    let mut above = trail.len();
    'steps: while above > 0 {
        above -= 1;
        if trail[above].cause.is_none() {
            return Some(above);
        }
    }
    None
}

/// The place of the first decision from one place up to another, or that other place.
pub(crate) fn first_decision(trail: &[Step], from: usize, to: usize) -> usize
    requires to { to ≤ length trail.now }
    requires from { from ≤ to }
    ensures from { from ≤ result }
    ensures within { result ≤ to }
    ensures decision { (s : TrailStep) → slice_get trail.now result ≡ Some s → (s.cause ≡ None) ⊎ (result ≡ to) }
    ensures first { (j : ℕ) (s : TrailStep) → j < result → slice_get trail.now j ≡ Some s → s.cause ≡ None → j < from }
{
    let mut place = from;
    'steps: while place < to {
        if trail[place].cause.is_none() {
            return place;
        }
        place += 1;
    }
    to
}

/// The last step before a place whose variable is marked.
pub(crate) fn last_marked(trail: &[Step], marks: &[bool], to: usize) -> Option<usize>
    requires to { to ≤ length trail.now }
    requires below { AreBelowIn (length marks.now) trail.now }
    ensures some { IfSome result (IsLastMarked marks.now trail.now to) }
    ensures none { IfNone result (AreUnmarked marks.now trail.now 0 to) }
{
    let mut above = to;
    'steps: while above > 0 {
        above -= 1;
        if is_marked_at(marks, trail, above) {
            return Some(above);
        }
    }
    None
}

/// The place of the first decision behind the last marked step before the last decision, or the last decision's.
pub(crate) fn target_of(trail: &[Step], last: Option<usize>, decision: usize) -> usize
    requires to { decision ≤ length trail.now }
    requires last { IfSome last (λ place. place < decision) }
    ensures behind { IfSome last (λ place. place < result) }
    ensures within { result ≤ decision }
    ensures decision { (s : TrailStep) → slice_get trail.now result ≡ Some s → (s.cause ≡ None) ⊎ (result ≡ decision) }
    ensures first { (j : ℕ) (s : TrailStep) → j < result → slice_get trail.now j ≡ Some s → s.cause ≡ None → (place : ℕ) × (last ≡ Some place) × (j ≤ place) }
{
    match last {
        Some(place) => first_decision(trail, place + 1, decision),
        None => first_decision(trail, 0, decision),
    }
}
