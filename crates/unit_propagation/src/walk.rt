//! Following the values that variables have.

ghost use Rattle.std.specs.Prelude.{◌≤◌, length, All, IfOk, IfSome, IfNone, OnOk};
ghost use Rattle.cfj_logic.specs.Logs.{AreBelow};
ghost use Rattle.unit_propagation.specs.Falsified.{IsFalsifiedAt};
ghost use Rattle.unit_propagation.specs.Standings.{AreOpen};
ghost use Rattle.unit_propagation.specs.Trails.{Grows};
ghost use Rattle.unit_propagation.specs.Walks.{AreFollowed, FollowsOne, AreFollowedBut, AreSettled};
ghost use Rattle.unit_propagation.specs.Watched.{AreWatched, Handled, IsKept};

use crate::trail::Step;
use crate::values::value_of;
use crate::watches::{Watches, settle};
use cfj_logic::Literal;
use cfj_words::Items;
use std::alloc::{AllocError, Global};

/// Makes the literals of those clauses true that have no two, up to a falsified clause.
fn settle_short(
    clauses: &[Items<Literal>],
    short: &[usize],
    values: &mut [Option<bool>],
    trail: &mut Vec<Step>,
) -> Result<Option<usize>, AllocError>
    requires below { All (AreBelow (length values.old)) clauses.now }
    ensures grown { OnOk result (Grows clauses.now values.old trail.old.items values.new trail.new.items) }
    ensures falsified { IfOk result (λ found. IfSome found (IsFalsifiedAt clauses.now values.new)) }
    ensures settled { IfOk result (λ found. IfNone found (AreSettled clauses.now short.now values.new)) }
{
    for place in short {
        if settle(clauses, values, trail, *place)? {
            return Ok(Some(*place));
        }
    }
    Ok(None)
}

/// Follows the value of a variable, if it has one that wasn't followed, up to a falsified clause.
fn follow_value(
    alloc: Global,
    clauses: &[Items<Literal>],
    watches: &mut Watches,
    values: &mut [Option<bool>],
    trail: &mut Vec<Step>,
    done: &mut [Option<bool>],
    var: u64,
) -> Result<Option<usize>, AllocError>
    requires below { All (AreBelow (length values.old)) clauses.now }
    requires watched { AreWatched clauses.now watches.old }
    requires followed { AreFollowed clauses.now watches.old.pairs.items done.old values.old }
    ensures grown { OnOk result (Grows clauses.now values.old trail.old.items values.new trail.new.items) }
    ensures watched { AreWatched clauses.now watches.new }
    ensures falsified { IfOk result (λ found. IfSome found (IsFalsifiedAt clauses.now values.new)) }
    ensures followed { IfOk result (λ found. IfNone found
        (FollowsOne clauses.now watches.new.pairs.items done.old done.new values.new var)) }
{
    let Some(on) = value_of(values, var) else {
        return Ok(None);
    };
    if value_of(done, var).is_some() {
        return Ok(None);
    }
    let falsified = Literal { var, on: !on };
    let found = watches.visit_all(alloc, clauses, values, trail, falsified)?;
    done[var as usize] = Some(on);
    Ok(found)
}

/// Follows the values that the variables have, up to a falsified clause.
fn follow_given(
    alloc: Global,
    clauses: &[Items<Literal>],
    watches: &mut Watches,
    values: &mut [Option<bool>],
    trail: &mut Vec<Step>,
    done: &mut [Option<bool>],
) -> Result<Option<usize>, AllocError>
    requires below { All (AreBelow (length values.old)) clauses.now }
    requires watched { AreWatched clauses.now watches.old }
    requires followed { AreFollowed clauses.now watches.old.pairs.items done.old values.old }
    ensures grown { OnOk result (Grows clauses.now values.old trail.old.items values.new trail.new.items) }
    ensures watched { AreWatched clauses.now watches.new }
    ensures falsified { IfOk result (λ found. IfSome found (IsFalsifiedAt clauses.now values.new)) }
    ensures followed { IfOk result (λ found. IfNone found
        (AreFollowed clauses.now watches.new.pairs.items done.new values.new)) }
    ensures rest { IfOk result (λ found. IfNone found
        (AreFollowedBut done.new values.new trail.new.items (length trail.old.items) (length values.new))) }
{
    'vars: for var in 0..values.len() {
        let found = follow_value(alloc, clauses, watches, values, trail, done, var as u64)?;
        if found.is_some() {
            return Ok(found);
        }
    }
    Ok(None)
}

/// Follows the trail's literals from a place on, up to a falsified clause.
fn follow_steps(
    alloc: Global,
    clauses: &[Items<Literal>],
    watches: &mut Watches,
    values: &mut [Option<bool>],
    trail: &mut Vec<Step>,
    done: &mut [Option<bool>],
    from: usize,
) -> Result<Option<usize>, AllocError>
    requires below { All (AreBelow (length values.old)) clauses.now }
    requires watched { AreWatched clauses.now watches.old }
    requires followed { AreFollowed clauses.now watches.old.pairs.items done.old values.old }
    requires rest { AreFollowedBut done.old values.old trail.old.items from (length values.old) }
    requires from { from ≤ length trail.old.items }
    ensures grown { OnOk result (Grows clauses.now values.old trail.old.items values.new trail.new.items) }
    ensures watched { AreWatched clauses.now watches.new }
    ensures falsified { IfOk result (λ found. IfSome found (IsFalsifiedAt clauses.now values.new)) }
    ensures handled { IfOk result (λ found. IfNone found
        (Handled clauses.now watches.new.pairs.items values.new values.new)) }
{
    let mut head = from;
    'steps: while head < trail.len() {
        let var = trail[head].literal.var;
        let found = follow_value(alloc, clauses, watches, values, trail, done, var)?;
        if found.is_some() {
            return Ok(found);
        }
        head += 1;
    }
    Ok(None)
}

/// Follows the values that the variables have, and those that come to it, up to a falsified clause.
fn follow_all(
    alloc: Global,
    clauses: &[Items<Literal>],
    watches: &mut Watches,
    values: &mut [Option<bool>],
    trail: &mut Vec<Step>,
    done: &mut [Option<bool>],
) -> Result<Option<usize>, AllocError>
    requires below { All (AreBelow (length values.old)) clauses.now }
    requires watched { AreWatched clauses.now watches.old }
    requires followed { AreFollowed clauses.now watches.old.pairs.items done.old values.old }
    ensures grown { OnOk result (Grows clauses.now values.old trail.old.items values.new trail.new.items) }
    ensures watched { AreWatched clauses.now watches.new }
    ensures falsified { IfOk result (λ found. IfSome found (IsFalsifiedAt clauses.now values.new)) }
    ensures handled { IfOk result (λ found. IfNone found
        (Handled clauses.now watches.new.pairs.items values.new values.new)) }
{
    let from = trail.len();
    let found = follow_given(alloc, clauses, watches, values, trail, done)?;
    if found.is_some() {
        return Ok(found);
    }
    follow_steps(alloc, clauses, watches, values, trail, done, from)
}

/// Follows the values by unit clauses until a clause is falsified, whose place is the result, or all are open.
pub(crate) fn follow(
    alloc: Global,
    clauses: &[Items<Literal>],
    watches: &mut Watches,
    short: &[usize],
    values: &mut [Option<bool>],
    trail: &mut Vec<Step>,
) -> Result<Option<usize>, AllocError>
    requires below { All (AreBelow (length values.old)) clauses.now }
    requires watched { IsKept clauses.now watches.old short.now }
    ensures grown { OnOk result (Grows clauses.now values.old trail.old.items values.new trail.new.items) }
    ensures watched { IsKept clauses.now watches.new short.now }
    ensures falsified { IfOk result (λ found. IfSome found (IsFalsifiedAt clauses.now values.new)) }
    ensures opened { IfOk result (λ found. IfNone found (AreOpen clauses.now values.new)) }
{
    let found = settle_short(clauses, short, values, trail)?;
    if found.is_some() {
        return Ok(found);
    }
    let mut done = vec![in alloc; None; values.len()]?;
    follow_all(alloc, clauses, watches, values, trail, done.as_mut_slice())
}
