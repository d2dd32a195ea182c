//! A search over so many features that it would give up if it tried one selection after another.

use super::{BUDGET, and, clauses_for, feat, implies, or};
use cfj_logic::{Formula, Selection};
use refutation_check::check_least;
use sat_core::{Answer, solve};
use std::alloc::{AllocError, Global};
use std::test::Fail;

/// The number of features.
const FEATURES: u8 = 40;

/// The last feature but one.
const LEFT: u8 = 38;

/// The last feature.
const RIGHT: u8 = 39;

/// One of the last two features is selected, and each brings the other.
fn both_of_two(alloc: Global) -> Result<Formula, AllocError> {
    let one = or(alloc, feat(LEFT), feat(RIGHT))?;
    let left = implies(alloc, feat(LEFT), feat(RIGHT))?;
    let right = implies(alloc, feat(RIGHT), feat(LEFT))?;
    let each = and(alloc, left, right)?;
    and(alloc, one, each)
}

#[test]
fn a_search_goes_round_the_features_that_play_no_part(rt: HostRuntime) -> Result<(), Fail> {
    let alloc = rt.alloc();
    let formula = both_of_two(alloc)?;
    let Some(clauses) = clauses_for(alloc, FEATURES, &formula)? else {
        panic!(rt; "the formula is over the features");
    };
    match solve(alloc, &clauses, BUDGET)? {
        Answer::Least(selection, log) => {
            assert_eq!(rt; selection, Selection::none(FEATURES).with(LEFT).with(RIGHT));
            assert!(rt; log.clauses().len() < 100);
            assert!(rt; check_least(alloc, &clauses, &log, &selection)?);
        }
        _ => panic!(rt; "the last two features alone meet it"),
    }
    Ok(())
}
