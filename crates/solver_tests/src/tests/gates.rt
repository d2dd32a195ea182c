//! The gates of formulas and their clauses, against a plain evaluation.
ghost use Rattle.std.specs.Prelude.{◌≤◌, ◌<◌, length};

use super::{
    MOST_FEATURES, and, clauses_for, feat, fits, iff, implies, not, or, selection_of, truth,
};
use cfj_logic::{Clauses, Formula};
use cond_circuit::Circuit;
use std::alloc::{AllocError, Global};
use std::test::Fail;

/// Whether a gate has a formula's value under every selection.
fn has_values(circuit: &Circuit, gate: u64, formula: &Formula) -> bool
    requires gate { gate < length circuit.now.parts }
    requires few { circuit.now.features ≤ 8 }
{
    let features = circuit.features();
    let mut agrees = true;
    'selections: for on in 0..1u32 << features {
        let selection = selection_of(features, on);
        let value = circuit.eval(gate, &selection);
        agrees = agrees && value == truth(formula, on);
    }
    agrees
}

/// Whether the gate of a formula has the formula's value under every selection, and is found again.
fn gate_agrees(alloc: Global, features: u8, formula: &Formula) -> Result<bool, AllocError> {
    if features > MOST_FEATURES {
        return Ok(false);
    }
    if !fits(features, formula) {
        return Ok(false);
    }
    let mut circuit = Circuit::new(alloc, features)?;
    let gate = circuit.formula(formula)?;
    if !has_values(&circuit, gate, formula) {
        return Ok(false);
    }
    let count = circuit.gates();
    let again = circuit.formula(formula)?;
    Ok(again == gate && circuit.gates() == count)
}

/// One of some small formulas over three features.
fn small(alloc: Global, number: u8) -> Result<Formula, AllocError> {
    match number {
        0 => Ok(Formula::True),
        1 => Ok(Formula::False),
        2 | 3 | 4 => Ok(feat(number - 2)),
        5 => not(alloc, feat(0)),
        6 => and(alloc, feat(0), feat(1)),
        7 => or(alloc, feat(1), feat(2)),
        8 => implies(alloc, feat(2), feat(0)),
        _ => iff(alloc, feat(0), feat(2)),
    }
}

#[test]
fn formulas_of_each_kind_have_their_values(rt: HostRuntime) -> Result<(), Fail> {
    let alloc = rt.alloc();
    for left in 0..10u8 {
        let denied = not(alloc, small(alloc, left)?)?;
        assert!(rt;
            gate_agrees(alloc, 3, &small(alloc, left)?)?,
            "formula {left}"
        );
        assert!(rt; gate_agrees(alloc, 3, &denied)?, "not {left}");
        for right in 0..10u8 {
            let both = and(alloc, small(alloc, left)?, small(alloc, right)?)?;
            assert!(rt; gate_agrees(alloc, 3, &both)?, "and {left} {right}");
            let either = or(alloc, small(alloc, left)?, small(alloc, right)?)?;
            assert!(rt; gate_agrees(alloc, 3, &either)?, "or {left} {right}");
            let follows = implies(alloc, small(alloc, left)?, small(alloc, right)?)?;
            assert!(rt; gate_agrees(alloc, 3, &follows)?, "implies {left} {right}");
            let same = iff(alloc, small(alloc, left)?, small(alloc, right)?)?;
            assert!(rt; gate_agrees(alloc, 3, &same)?, "iff {left} {right}");
        }
    }
    Ok(())
}

/// Whether a clause has these literals in this order.
fn is_clause(clauses: &Clauses, place: usize, literals: &[(u64, bool)]) -> bool {
    let Some(clause) = clauses.list.slice().get(place) else {
        return false;
    };
    let clause = clause.slice();
    clause.len() == literals.len()
        && clause.iter().zip(literals.iter()).all(|(literal, (var, on))| literal.var == *var
            && literal.on == *on)
}

#[test]
fn the_clauses_of_a_gate_stand_in_order(rt: HostRuntime) -> Result<(), Fail> {
    let alloc = rt.alloc();
    // A and not B: variable 2 is the gate of not B, variable 3 that of both.
    let not_second = not(alloc, feat(1))?;
    let formula = and(alloc, feat(0), not_second)?;
    let Some(clauses) = clauses_for(alloc, 2, &formula)? else {
        panic!(rt; "the formula is over two features");
    };
    let expected: [&[(u64, bool)]; 6] = [
        &[(2, true), (1, true)],
        &[(2, false), (1, false)],
        &[(3, false), (0, true)],
        &[(3, false), (2, true)],
        &[(3, true), (0, false), (2, false)],
        &[(3, true)],
    ];
    assert_eq!(rt; clauses.features, 2);
    assert_eq!(rt; clauses.vars, 4);
    assert_eq!(rt; clauses.list.slice().len(), expected.len());
    for (place, literals) in expected.iter().enumerate() {
        assert!(rt; is_clause(&clauses, place, literals), "clause {place}");
    }
    Ok(())
}

#[test]
fn constants_have_no_clause_or_the_empty_one(rt: HostRuntime) -> Result<(), Fail> {
    let alloc = rt.alloc();
    let Some(none) = clauses_for(alloc, 2, &Formula::True)? else {
        panic!(rt; "true is over two features");
    };
    assert_eq!(rt; none.vars, 2);
    assert!(rt; none.list.slice().is_empty());
    let Some(empty) = clauses_for(alloc, 2, &Formula::False)? else {
        panic!(rt; "false is over two features");
    };
    assert_eq!(rt; empty.list.slice().len(), 1);
    assert!(rt; is_clause(&empty, 0, &[]));
    Ok(())
}
