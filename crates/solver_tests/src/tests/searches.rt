//! The solver and the checker of logs against a plain search, over formulas that look random.
ghost use Rattle.std.specs.Prelude.{◌≤◌, ◌<◌};
ghost use Rattle.solver_tests.specs.Questions.{IsQuestion};

use super::numbers::Numbers;
use super::{
    BUDGET, MOST_FEATURES, and, clauses_for, feat, iff, implies, is_set, not, or, selection_of,
    truth,
};
use cfj_logic::{Clauses, Formula, Log};
use refutation_check::{check_least, check_refutation};
use sat_core::{Answer, solve};
use std::alloc::{AllocError, Global};
use std::test::Fail;

/// A formula of a depth over so many features.
fn some_formula(
    alloc: Global,
    numbers: &mut Numbers,
    features: u8,
    depth: u32,
) -> Result<Formula, AllocError>
    requires { 0 < features }
{
    if depth == 0 {
        return Ok(feat(numbers.below(features as u32) as u8));
    }
    let kind = numbers.below(6);
    let left = some_formula(alloc, numbers, features, depth - 1)?;
    if kind == 0 {
        return not(alloc, left);
    }
    let right = some_formula(alloc, numbers, features, depth - 1)?;
    match kind {
        1 | 2 => and(alloc, left, right),
        3 => or(alloc, left, right),
        4 => implies(alloc, left, right),
        _ => iff(alloc, left, right),
    }
}

/// The first selection that meets a formula, by a plain search in the order in which an earlier feature weighs more and is
/// first not selected.
fn plain_search(features: u8, formula: &Formula) -> Option<u32>
    requires { features ≤ 8 }
{
    (0..1u32 << features)
        .map(|number| turned(features, number))
        .find(|on| truth(formula, *on))
}

/// The number whose bits, so many, are those of another from the highest on.
fn turned(features: u8, number: u32) -> u32
    requires { features ≤ 8 }
{
    let mut on = 0;
    'features: for feature in 0..features {
        if is_set(number, features - 1 - feature) {
            on |= 1u32 << feature;
        }
    }
    on
}

/// Whether the solver answers what the plain search finds, with a log that the checker takes, and that proves no other
/// selection the least.
fn search_agrees(alloc: Global, features: u8, formula: &Formula) -> Result<bool, AllocError> {
    if features > MOST_FEATURES {
        return Ok(false);
    }
    let Some(clauses) = clauses_for(alloc, features, formula)? else {
        return Ok(false);
    };
    let found = plain_search(features, formula);
    match solve(alloc, &clauses, BUDGET)? {
        Answer::Refuted(log) => { Ok(found.is_none() && check_refutation(alloc, &clauses, &log)?) }
        Answer::Least(selection, log) => {
            let Some(least) = found else {
                return Ok(false);
            };
            if selection != selection_of(features, least) {
                return Ok(false);
            }
            if check_refutation(alloc, &clauses, &log)? {
                return Ok(false);
            }
            proves_alone(alloc, features, &clauses, &log, least)
        }
        Answer::Spent(_) => Ok(false),
    }
}

/// Whether a log proves this selection the least and no other.
fn proves_alone(
    alloc: Global,
    features: u8,
    clauses: &Clauses,
    log: &Log,
    least: u32,
) -> Result<bool, AllocError>
    requires few { features ≤ 8 }
    requires question { IsQuestion features clauses.now }
{
    let mut agrees = true;
    'selections: for on in 0..1u32 << features {
        let other = selection_of(features, on);
        let is_least = check_least(alloc, clauses, log, &other)?;
        agrees = agrees && is_least == (on == least);
    }
    Ok(agrees)
}

/// A formula for the test of this number; every other one is met by few selections or none.
fn question(
    alloc: Global,
    numbers: &mut Numbers,
    features: u8,
    number: u32,
) -> Result<Formula, AllocError>
    requires { 0 < features }
{
    let formula = some_formula(alloc, numbers, features, 1 + number % 4)?;
    if number % 2 == 0 {
        return Ok(formula);
    }
    let more = some_formula(alloc, numbers, features, 2)?;
    let other = some_formula(alloc, numbers, features, 2)?;
    let denied = not(alloc, other)?;
    let both = and(alloc, more, denied)?;
    and(alloc, formula, both)
}

#[test]
fn the_solver_finds_what_a_plain_search_finds(rt: HostRuntime) -> Result<(), Fail> {
    let alloc = rt.alloc();
    let mut numbers = Numbers::new(1);
    let mut refuted = 0u32;
    'circuits: for number in 0..2_000u32 {
        let features = 1 + (number % 6) as u8;
        let formula = question(alloc, &mut numbers, features, number)?;
        if plain_search(features, &formula).is_none() {
            refuted = refuted.saturating_add(1);
        }
        assert!(rt;
            search_agrees(alloc, features, &formula)?,
            "circuit {number}"
        );
    }
    assert!(rt;
        refuted > 100 && refuted < 1_900,
        "{refuted} of the circuits are never true"
    );
    Ok(())
}
