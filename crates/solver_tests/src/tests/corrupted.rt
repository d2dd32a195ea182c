//! Logs that were changed, which the checker refuses exactly where a slow one does that goes through all clauses again and again.
ghost use Rattle.std.specs.Prelude.{◌≡◌, ◌≤◌, ◌<◌};
ghost use Rattle.solver_tests.specs.Questions.{IsQuestion};

use super::numbers::Numbers;
use super::{BUDGET, and, clauses_for, feat, not, or};
use cfj_logic::{Clause, Clauses, FeatureSet, Formula, Literal, Log};
use cfj_words::Items;
use refutation_check::{check_refutation, literals};
use sat_core::{Answer, solve};
use std::alloc::{AllocError, Global};
use std::test::Fail;

/// The features of a question that is hard to answer.
const FEATURES: u8 = 8;

/// A feature, or its denial.
fn some_literal(alloc: Global, numbers: &mut Numbers) -> Result<Formula, AllocError> {
    let feature = feat(numbers.below(FEATURES as u32) as u8);
    if numbers.below(2) == 0 {
        return not(alloc, feature);
    }
    Ok(feature)
}

/// So many clauses of three literals.
fn hard_formula(alloc: Global, numbers: &mut Numbers, clauses: u32) -> Result<Formula, AllocError> {
    let mut all = Formula::True;
    'clauses: for _ in 0..clauses {
        let first = some_literal(alloc, numbers)?;
        let second = some_literal(alloc, numbers)?;
        let third = some_literal(alloc, numbers)?;
        let two = or(alloc, first, second)?;
        let clause = or(alloc, two, third)?;
        all = and(alloc, all, clause)?;
    }
    Ok(all)
}

/// The value of a literal's variable.
fn value_at(values: &[Option<bool>], literal: Literal) -> Option<bool> {
    let at = literal.var as usize;
    if at < values.len() { values[at] } else { None }
}

/// Gives a literal's variable a value.
fn give(values: &mut Vec<Option<bool>>, literal: Literal, on: bool) {
    let at = literal.var as usize;
    if at < values.len() {
        values[at] = Some(on);
    }
}

/// The number of the clause's literals that have no value, and one of them; nothing where one is true.
fn unvalued(values: &[Option<bool>], clause: &[Literal]) -> Option<(usize, Option<Literal>)> {
    let mut count = 0usize;
    let mut last = None;
    'literals: for literal in clause {
        match value_at(values, *literal) {
            Some(value) if value == literal.on => return None,
            Some(_) => {}
            None => {
                count = count.saturating_add(1);
                last = Some(*literal);
            }
        }
    }
    Some((count, last))
}

/// Whether the premises lead from these values to a falsified clause: they are gone through as often as there are variables.
fn leads(values: &mut Vec<Option<bool>>, premises: &[Items<Literal>]) -> bool {
    'passes: for _ in 0..values.len() + 1 {
        'premises: for clause in premises {
            match unvalued(values.as_slice(), clause.slice()) {
                Some((0, _)) => return true,
                Some((1, Some(literal))) => give(values, literal, literal.on),
                _ => {}
            }
        }
    }
    false
}

/// Whether a clause may stand behind these.
fn may_follow(
    alloc: Global,
    vars: u64,
    premises: &[Items<Literal>],
    before: &[Clause],
    clause: &Clause,
) -> Result<bool, AllocError> {
    'earlier: for earlier in before {
        if earlier.is_within(clause) {
            return Ok(false);
        }
    }
    let mut values = vec![in alloc; None; vars as usize]?;
    let list = literals(alloc, clause)?;
    'literals: for literal in list.slice() {
        give(&mut values, *literal, !literal.on);
    }
    Ok(leads(&mut values, premises))
}

/// A slow check of a refutation.
fn slow_check(alloc: Global, clauses: &Clauses, log: &[Clause]) -> Result<bool, AllocError> {
    let mut premises = Vec::new(alloc);
    'clauses: for clause in clauses.list.slice() {
        let mut copy = Vec::new(alloc);
        copy.extend_from_slice(clause.slice())?;
        premises.push(Items::of(copy))?;
    }
    let mut before = Vec::new(alloc);
    let mut is_refuted = false;
    'log: for clause in log {
        if !may_follow(
            alloc,
            clauses.vars,
            premises.as_slice(),
            before.as_slice(),
            clause,
        )? {
            return Ok(false);
        }
        is_refuted = is_refuted || clause.is_empty();
        premises.push(literals(alloc, clause)?)?;
        before.push(*clause)?;
    }
    Ok(is_refuted)
}

/// The features of a set but one.
fn without(set: FeatureSet, feature: u8) -> FeatureSet {
    let mut rest = FeatureSet::empty();
    'features: for other in 0..FEATURES {
        if other != feature && set.has(other) {
            rest = rest.with(other);
        }
    }
    rest
}

/// The clause with the feature's literal turned, if it has one.
fn turned(clause: &Clause, feature: u8) -> Option<Clause>
    requires { feature < 8 }
{
    let mut on = without(clause.on(), feature);
    let mut off = without(clause.off(), feature);
    if clause.on().has(feature) {
        off = off.with(feature);
    } else if clause.off().has(feature) {
        on = on.with(feature);
    } else {
        return None;
    }
    if on.is_disjoint(&off) {
        Some(Clause::of(on, off))
    } else {
        None
    }
}

/// Whether both checks say the same of a log with these clauses.
fn checks_agree(alloc: Global, clauses: &Clauses, list: &[Clause]) -> Result<bool, AllocError>
    requires { IsQuestion 8 clauses.now }
{
    let mut log = Log::new(alloc);
    'list: for clause in list {
        log.push(*clause)?;
    }
    Ok(check_refutation(alloc, clauses, &log)? == slow_check(alloc, clauses, list)?)
}

/// The list without the clause at a place.
fn dropped(alloc: Global, list: &[Clause], place: usize) -> Result<Vec<Clause>, AllocError> {
    let mut rest = Vec::new(alloc);
    'list: for (at, clause) in list.iter().enumerate() {
        if at != place {
            rest.push(*clause)?;
        }
    }
    Ok(rest)
}

/// The list with the clause at a place and the next in the other order.
fn swapped(alloc: Global, list: &[Clause], place: usize) -> Result<Vec<Clause>, AllocError> {
    let mut other = Vec::new(alloc);
    other.extend_from_slice(list)?;
    if place < other.len() && place + 1 < other.len() {
        other.swap(place, place + 1);
    }
    Ok(other)
}

/// Whether both checks say the same of a log in which a literal of the clause at a place is turned.
fn turns_agree(
    alloc: Global,
    clauses: &Clauses,
    list: &[Clause],
    place: usize,
) -> Result<bool, AllocError>
    requires { IsQuestion 8 clauses.now }
{
    let mut agrees = true;
    'features: for feature in 0..FEATURES {
        let mut other = Vec::new(alloc);
        'list: for (at, clause) in list.iter().enumerate() {
            let changed = if at == place {
                turned(clause, feature)
            } else {
                None
            };
            other.push(changed.unwrap_or(*clause))?;
        }
        agrees = agrees && checks_agree(alloc, clauses, other.as_slice())?;
    }
    Ok(agrees)
}

/// Whether both checks say the same of each log that differs from this one by a change.
fn changes_agree(alloc: Global, clauses: &Clauses, list: &[Clause]) -> Result<bool, AllocError>
    requires { IsQuestion 8 clauses.now }
{
    let mut agrees = checks_agree(alloc, clauses, list)?;
    'places: for place in 0..list.len() {
        let rest = dropped(alloc, list, place)?;
        let other = swapped(alloc, list, place)?;
        agrees = agrees
            && checks_agree(alloc, clauses, rest.as_slice())?
            && checks_agree(alloc, clauses, other.as_slice())?
            && turns_agree(alloc, clauses, list, place)?;
    }
    Ok(agrees)
}

#[test]
fn changed_logs_are_refused_where_they_should_be(rt: HostRuntime) -> Result<(), Fail> {
    let alloc = rt.alloc();
    let mut numbers = Numbers::new(7);
    let mut logged = 0usize;
    'questions: for number in 0..30u32 {
        let formula = hard_formula(alloc, &mut numbers, 44)?;
        let Some(clauses) = clauses_for(alloc, FEATURES, &formula)? else {
            panic!(rt; "question {number} is over eight features");
        };
        match solve(alloc, &clauses, BUDGET)? {
            Answer::Refuted(log) => {
                logged = logged.saturating_add(log.clauses().len());
                assert!(rt;
                    changes_agree(alloc, &clauses, log.clauses())?,
                    "question {number}"
                );
            }
            _ => {}
        }
    }
    assert!(rt; logged > 60, "{logged} clauses in all");
    Ok(())
}
