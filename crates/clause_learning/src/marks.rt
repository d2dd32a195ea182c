//! Marks of variables.

ghost use Rattle.std.specs.Prelude.{◌≡◌, ◌<◌, ◌≤◌, length, get_or, slice_get, slice_set, replicate, false, IfOk, IsTrue, Some};
ghost use Rattle.cfj_logic.specs.Logs.{AreBelow};
ghost use Rattle.unit_propagation.specs.declared.trail.Step.{Step as TrailStep};
ghost use Rattle.clause_learning.specs.Decided.{AreBelowIn};
ghost use Rattle.clause_learning.specs.Denials.{AreUnmarked, with_all, with_other, with_others};

use cfj_logic::Literal;
use std::alloc::{AllocError, Global};
use unit_propagation::Step;

/// So many variables without a mark.
pub(crate) fn no_marks(alloc: Global, size: usize) -> Result<Vec<bool>, AllocError>
    ensures { IfOk result (λ marks. marks.items ≡ replicate size false) }
{
    vec![in alloc; false; size]
}

/// Marks a variable, or takes its mark away.
fn mark(marks: &mut [bool], var: u64, is_marked: bool)
    requires { var < length marks.old }
    ensures { marks.new ≡ slice_set marks.old var is_marked }
{
    marks[var as usize] = is_marked;
}

/// Marks the variables of a clause.
pub(crate) fn mark_all(marks: &mut Vec<bool>, clause: &[Literal])
    requires { AreBelow (length marks.old.items) clause.now }
    ensures { marks.new.items ≡ with_all marks.old.items clause.now }
{
    for literal in clause {
        marks[literal.var as usize] = true;
    }
}

/// Marks a literal's variable, unless the literal is this one.
fn mark_other(marks: &mut [bool], literal: Literal, other: Literal)
    requires { other.var < length marks.old }
    ensures { marks.new ≡ with_other literal marks.old other }
{
    if other != literal {
        mark(marks, other.var, true);
    }
}

/// Resolves the marked variables' literals with a clause whose one true literal is this: its variable's mark goes, and the others' come.
pub(crate) fn resolve(marks: &mut [bool], clause: &[Literal], literal: Literal)
    requires clause { AreBelow (length marks.old) clause.now }
    requires literal { literal.var < length marks.old }
    ensures { marks.new ≡ with_others literal (slice_set marks.old literal.var false) clause.now }
{
    mark(marks, literal.var, false);
    for other in clause {
        mark_other(marks, literal, *other);
    }
}

/// Whether the variable of the step at this place is marked.
pub(crate) fn is_marked_at(marks: &[bool], trail: &[Step], place: usize) -> bool
    requires place { place < length trail.now }
    requires below { AreBelowIn (length marks.now) trail.now }
    ensures { (s : TrailStep) → slice_get trail.now place ≡ Some s → result ≡ get_or marks.now s.literal.var false }
{
    marks[trail[place].literal.var as usize]
}

/// Whether no step from a place up to another, which is left out, has a marked variable.
pub(crate) fn none_marked(marks: &[bool], trail: &[Step], from: usize, to: usize) -> bool
    requires to { to ≤ length trail.now }
    requires below { AreBelowIn (length marks.now) trail.now }
    ensures { IsTrue result → AreUnmarked marks.now trail.now from to }
{
    let mut above = to;
    'steps: while above > from {
        above -= 1;
        if is_marked_at(marks, trail, above) {
            return false;
        }
    }
    true
}
