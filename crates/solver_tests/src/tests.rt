//! Circuits, logs and the solver against plain evaluation and plain search.

ghost use Rattle.std.specs.Prelude.{◌≡◌, ◌≤◌, IfOk, IfSome};
ghost use Rattle.cfj_logic.specs.Formulas as spec;
ghost use Rattle.solver_tests.specs.Questions.{IsQuestion};

mod corrupted;
mod gates;
mod logs;
mod many_features;
mod numbers;
mod searches;

use cfj_logic::{Clauses, Formula, Selection};
use cfj_words::Boxed;
use cnf_form::clauses_of;
use cond_circuit::Circuit;
use std::alloc::{AllocError, Global};

/// The largest budget of a search.
const BUDGET: u32 = 20_000;

/// The most features in a test that goes through all selections.
const MOST_FEATURES: u8 = 8;

fn feat(feature: u8) -> Formula {
    Formula::Feat(feature)
}

fn not(alloc: Global, part: Formula) -> Result<Formula, AllocError> {
    Ok(Formula::Not(Boxed::new(alloc, part)?))
}

fn and(alloc: Global, left: Formula, right: Formula) -> Result<Formula, AllocError> {
    Ok(Formula::And(Boxed::new(alloc, left)?, Boxed::new(alloc, right)?))
}

fn or(alloc: Global, left: Formula, right: Formula) -> Result<Formula, AllocError> {
    Ok(Formula::Or(Boxed::new(alloc, left)?, Boxed::new(alloc, right)?))
}

fn implies(alloc: Global, left: Formula, right: Formula) -> Result<Formula, AllocError> {
    Ok(Formula::Implies(Boxed::new(alloc, left)?, Boxed::new(alloc, right)?))
}

fn iff(alloc: Global, left: Formula, right: Formula) -> Result<Formula, AllocError> {
    Ok(Formula::Iff(Boxed::new(alloc, left)?, Boxed::new(alloc, right)?))
}

/// Whether all features of a formula are below a number.
fn fits(features: u8, formula: &Formula) -> bool
    ensures { result ≡ spec.is_over features formula.now }
{
    match formula {
        Formula::True => true,
        Formula::False => true,
        Formula::Feat(feature) => *feature < features,
        Formula::Not(part) => fits(features, part.get()),
        Formula::And(left, right) => fits(features, left.get()) && fits(features, right.get()),
        Formula::Or(left, right) => fits(features, left.get()) && fits(features, right.get()),
        Formula::Implies(left, right) => fits(features, left.get()) && fits(features, right.get()),
        Formula::Iff(left, right) => fits(features, left.get()) && fits(features, right.get()),
    }
}

/// Whether the bit of a feature is set.
fn is_set(on: u32, feature: u8) -> bool {
    on.checked_shr(feature as u32)
        .is_some_and(|bits| bits & 1 == 1)
}

/// A plain evaluation under the features whose bits are set.
fn truth(formula: &Formula, on: u32) -> bool {
    match formula {
        Formula::True => true,
        Formula::False => false,
        Formula::Feat(feature) => is_set(on, *feature),
        Formula::Not(part) => !truth(part.get(), on),
        Formula::And(left, right) => truth(left.get(), on) && truth(right.get(), on),
        Formula::Or(left, right) => truth(left.get(), on) || truth(right.get(), on),
        Formula::Implies(left, right) => !truth(left.get(), on) || truth(right.get(), on),
        Formula::Iff(left, right) => truth(left.get(), on) == truth(right.get(), on),
    }
}

/// The selection of the features whose bits are set.
fn selection_of(features: u8, on: u32) -> Selection
    requires { features ≤ 8 }
    ensures { result.features ≡ features }
{
    let mut selection = Selection::none(features);
    'features: for feature in 0..features {
        if is_set(on, feature) {
            selection = selection.with(feature);
        }
    }
    selection
}

/// The clauses of a formula's gate.
fn clauses_for(
    alloc: Global,
    features: u8,
    formula: &Formula,
) -> Result<Option<Clauses>, AllocError>
    ensures { IfOk result (λ found. IfSome found (λ clauses. IsQuestion features clauses)) }
{
    if features > 128 {
        return Ok(None);
    }
    if !fits(features, formula) {
        return Ok(None);
    }
    let mut circuit = Circuit::new(alloc, features)?;
    let gate = circuit.formula(formula)?;
    let clauses = clauses_of(alloc, &circuit, gate)?;
    if clauses.features != features {
        return Ok(None);
    }
    Ok(Some(clauses))
}
