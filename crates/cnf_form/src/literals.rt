//! The clauses that give a variable the value of a part.

ghost use Rattle.std.specs.Prelude.{if◌then◌else◌, ◌&&◌, ◌≡◌, ◌∷◌, [], ◌++◌, ◌<◌, length, IfOk, OnOk, slice_index_or, true, false, not};
ghost use Rattle.cnf_form.specs.GateClauses as spec;
ghost use Rattle.cnf_form.specs.Reaching.{AreBelow};

use cfj_logic::Literal;
use cfj_words::Items;
use cond_circuit::Part;
use std::alloc::{AllocError, Global};

/// Adds a clause of these literals.
pub fn add(
    alloc: Global,
    list: &mut Vec<Items<Literal>>,
    clause: &[Literal],
) -> Result<(), AllocError>
    ensures { OnOk result (list.new.items ≡ list.old.items ++ clause.now ∷ []) }
{
    let literals = Vec::from_slice(alloc, clause)?;
    list.push(Items::of(literals))?;
    Ok(())
}

/// The variable with this value.
pub fn literal(var: u64, on: bool) -> Literal
    ensures { result ≡ spec.literal var on }
{
    Literal { var, on }
}

/// Adds the clauses that give a variable the value of `not` of another.
fn add_not(
    alloc: Global,
    list: &mut Vec<Items<Literal>>,
    var: u64,
    operand: u64,
) -> Result<(), AllocError>
    ensures { OnOk result (list.new.items ≡ list.old.items ++ (spec.literal var true ∷ (spec.literal operand true ∷ [])) ∷ ((spec.literal var false ∷ (spec.literal operand false ∷ [])) ∷ [])) }
{
    add(alloc, list, &[literal(var, true), literal(operand, true)])?;
    add(alloc, list, &[literal(var, false), literal(operand, false)])
}

/// Adds the clauses that give a variable the value of `and` of two others, where `on` is true, and of `or` where it is false.
fn add_pair(
    alloc: Global,
    list: &mut Vec<Items<Literal>>,
    on: bool,
    var: u64,
    left: u64,
    right: u64,
) -> Result<(), AllocError>
    ensures { OnOk result (list.new.items ≡ list.old.items ++ (spec.literal var (not on) ∷ (spec.literal left on ∷ [])) ∷ ((spec.literal var (not on) ∷ (spec.literal right on ∷ [])) ∷ ((spec.literal var on ∷ (spec.literal left (not on) ∷ (spec.literal right (not on) ∷ []))) ∷ []))) }
{
    add(alloc, list, &[literal(var, !on), literal(left, on)])?;
    add(alloc, list, &[literal(var, !on), literal(right, on)])?;
    add(
        alloc,
        list,
        &[literal(var, on), literal(left, !on), literal(right, !on)],
    )
}

/// Adds the clauses that give a variable the value of a part, whose operands have these variables.
pub fn add_part(
    alloc: Global,
    list: &mut Vec<Items<Literal>>,
    variables: &[u64],
    var: u64,
    part: Part,
) -> Result<(), AllocError>
    requires { AreBelow (length variables.now) part }
    ensures { OnOk result (list.new.items ≡ list.old.items ++ spec.part_clauses (λ a. slice_index_or variables.now a 0) var part) }
{
    match part {
        Part::Zero | Part::One | Part::Feat(_) => Ok(()),
        Part::Not(operand) => add_not(alloc, list, var, variables[operand as usize]),
        Part::And(left, right) => add_pair(
            alloc,
            list,
            true,
            var,
            variables[left as usize],
            variables[right as usize],
        ),
        Part::Or(left, right) => add_pair(
            alloc,
            list,
            false,
            var,
            variables[left as usize],
            variables[right as usize],
        ),
    }
}

/// Adds the clauses of a gate with this variable and part, if it is reached.
pub fn add_gate(
    alloc: Global,
    list: &mut Vec<Items<Literal>>,
    reached: bool,
    variables: &[u64],
    var: u64,
    part: Part,
) -> Result<(), AllocError>
    requires { AreBelow (length variables.now) part }
    ensures { OnOk result (list.new.items ≡ list.old.items ++ (if reached then spec.part_clauses (λ a. slice_index_or variables.now a 0) var part else [])) }
{
    if reached {
        add_part(alloc, list, variables, var, part)
    } else {
        Ok(())
    }
}

/// The variable of a gate with this part, where so many variables stand before it.
pub fn variable(part: Part, before: u64) -> u64
    ensures { result ≡ spec.variable part before }
{
    match part {
        Part::Feat(feature) => u64::from(feature),
        Part::Zero | Part::One | Part::Not(_) | Part::And(_, _) | Part::Or(_, _) => before,
    }
}

/// How many variables of its own a gate with this part has, if it is reached.
pub fn own_variables(reached: bool, part: Part) -> u64
    ensures { result ≡ (if reached && spec.is_inner part then 1 else 0) }
{
    match part {
        Part::Not(_) | Part::And(_, _) | Part::Or(_, _) if reached => 1,
        _ => 0,
    }
}
