//! The search for the least selection.

ghost use Rattle.std.specs.Prelude.{◌≡◌, ◌≤◌, ◌++◌, ◌∷◌, [], IfOk, OnOk};
ghost use Rattle.cfj_logic.specs.Sides.{empty_clause};
ghost use Rattle.cfj_logic.specs.Logs.{AreWellFormed, AreSettledByFeatures};
ghost use Rattle.sat_core.specs.Searches.{AnswerSays};

use crate::answer::Answer;
use crate::steps::{decide, follow, learn};
use cfj_logic::{Clause, Clauses, FeatureSet, Log};
use clause_learning::{last_decision, next_feature, selection_of};
use std::alloc::{AllocError, Global};
use unit_propagation::WatchedClauses;

/// Logs the empty clause.
fn refute(log: &mut Log) -> Result<(), AllocError>
    ensures { OnOk result (log.new ≡ log.old ++ empty_clause ∷ []) }
{
    log.push(Clause::of(FeatureSet::empty(), FeatureSet::empty()))
}

/// The least selection that extends to a model of the clauses, or a refutation; where as many clauses are learned as the budget
/// allows, the search gives up.
///
/// Features are decided in the order of their numbers, not selected first, and unit clauses are followed. At a conflict a clause
/// over features is learned and logged, and the search jumps back to where it is a unit clause. The only error is want of memory.
pub fn solve(alloc: Global, clauses: &Clauses, budget: u32) -> Result<Answer, AllocError>
    requires formed { AreWellFormed clauses.now }
    requires settled { AreSettledByFeatures clauses.now }
    requires budget { (1 ≤ budget) × (budget ≤ 20000) }
    ensures { IfOk result (λ answer. AnswerSays clauses.now budget answer) }
{
    let mut log = Log::new(alloc);
    let mut premises = WatchedClauses::of(alloc, clauses.list.slice())?;
    let mut values = vec![in alloc; None; clauses.vars as usize]?;
    let mut trail = Vec::new(alloc);
    'search: loop {
        let found = follow(alloc, clauses, &log, &mut premises, &mut values, &mut trail)?;
        match found {
            None => match next_feature(clauses.features, values.as_slice()) {
                None => {
                    let selection = selection_of(clauses.features, values.as_slice());
                    return Ok(Answer::Least(selection, log));
                }
                Some(feature) => {
                    decide(&mut values, &mut trail, feature)?;
                }
            },
            Some(conflict) => {
                if log.clauses().len() == budget as usize {
                    return Ok(Answer::Spent(log));
                }
                match last_decision(trail.as_slice()) {
                    None => {
                        refute(&mut log)?;
                        return Ok(Answer::Refuted(log));
                    }
                    Some(decision) => {
                        learn(
                            alloc,
                            clauses,
                            &mut log,
                            &mut premises,
                            &mut values,
                            &mut trail,
                            conflict,
                            decision,
                        )?;
                    }
                }
            }
        }
    }
}
