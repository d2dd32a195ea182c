//! What the solver answers of a few constraints, and which logs the checker takes.
ghost use Rattle.std.specs.Prelude.{IfOk, IfSome};
ghost use Rattle.solver_tests.specs.Questions.{IsQuestion};

use super::{BUDGET, and, clauses_for, feat, not, or, selection_of};
use cfj_logic::{Clause, Clauses, FeatureSet, Formula, Log};
use refutation_check::{check_least, check_refutation};
use sat_core::{Answer, solve};
use std::alloc::{AllocError, Global};
use std::test::Fail;

/// `left | right`, each of the first two features, or denied.
fn either(alloc: Global, first: bool, second: bool) -> Result<Formula, AllocError> {
    let left = feature_or_not(alloc, 0, first)?;
    let right = feature_or_not(alloc, 1, second)?;
    or(alloc, left, right)
}

fn feature_or_not(alloc: Global, feature: u8, selected: bool) -> Result<Formula, AllocError> {
    if selected {
        return Ok(feat(feature));
    }
    not(alloc, feat(feature))
}

/// The four constraints over two features of which no selection meets all.
fn four_constraints(alloc: Global) -> Result<Option<Clauses>, AllocError>
    ensures { IfOk result (λ found. IfSome found (λ clauses. IsQuestion 2 clauses)) }
{
    let mut all = Formula::True;
    'constraints: for (first, second) in [
        (true, true),
        (true, false),
        (false, true),
        (false, false),
    ] {
        let constraint = either(alloc, first, second)?;
        all = and(alloc, all, constraint)?;
    }
    clauses_for(alloc, 2, &all)
}

#[test]
fn four_constraints_want_more_than_one_clause(rt: HostRuntime) -> Result<(), Fail> {
    let Some(clauses) = four_constraints(rt.alloc())? else {
        panic!(rt; "they are over two features");
    };
    match solve(rt.alloc(), &clauses, 1)? {
        Answer::Spent(log) => assert_eq!(rt; log.clauses().len(), 1),
        _ => panic!(rt; "one clause can't be enough"),
    }
    Ok(())
}

#[test]
fn four_constraints_are_refuted(rt: HostRuntime) -> Result<(), Fail> {
    let Some(clauses) = four_constraints(rt.alloc())? else {
        panic!(rt; "they are over two features");
    };
    match solve(rt.alloc(), &clauses, BUDGET)? {
        Answer::Refuted(log) => {
            assert!(rt; check_refutation(rt.alloc(), &clauses, &log)?);
        }
        _ => panic!(rt; "no selection meets all four"),
    }
    Ok(())
}

#[test]
fn the_empty_clause_alone_refutes_nothing(rt: HostRuntime) -> Result<(), Fail> {
    let Some(clauses) = four_constraints(rt.alloc())? else {
        panic!(rt; "they are over two features");
    };
    let mut log = Log::new(rt.alloc());
    assert!(rt; !check_refutation(rt.alloc(), &clauses, &log)?);
    log.push(Clause::of(FeatureSet::empty(), FeatureSet::empty()))?;
    assert!(rt; !check_refutation(rt.alloc(), &clauses, &log)?);
    Ok(())
}

#[test]
fn a_log_without_repetition_is_accepted(rt: HostRuntime) -> Result<(), Fail> {
    let Some(clauses) = four_constraints(rt.alloc())? else {
        panic!(rt; "they are over two features");
    };
    let with_first = Clause::of(FeatureSet::empty().with(0), FeatureSet::empty());
    let empty = Clause::of(FeatureSet::empty(), FeatureSet::empty());
    let mut log = Log::new(rt.alloc());
    log.push(with_first)?;
    log.push(empty)?;
    assert!(rt; check_refutation(rt.alloc(), &clauses, &log)?);
    // A clause that contains all literals of an earlier one is none.
    let mut repeated = Log::new(rt.alloc());
    repeated.push(with_first)?;
    repeated.push(with_first)?;
    repeated.push(empty)?;
    assert!(rt; !check_refutation(rt.alloc(), &clauses, &repeated)?);
    Ok(())
}

#[test]
fn of_two_features_the_later_is_least(rt: HostRuntime) -> Result<(), Fail> {
    let alloc = rt.alloc();
    let formula = or(alloc, feat(0), feat(1))?;
    let Some(clauses) = clauses_for(alloc, 2, &formula)? else {
        panic!(rt; "the formula is over two features");
    };
    match solve(alloc, &clauses, BUDGET)? {
        Answer::Least(selection, log) => {
            assert!(rt; !selection.has(0) && selection.has(1));
            assert!(rt; check_least(alloc, &clauses, &log, &selection)?);
            assert!(rt; !check_least(alloc, &clauses, &log, &selection_of(2, 1))?);
            assert!(rt; !check_least(alloc, &clauses, &log, &selection_of(2, 3))?);
            assert!(rt; !check_refutation(alloc, &clauses, &log)?);
        }
        _ => panic!(rt; "B alone meets it"),
    }
    Ok(())
}
