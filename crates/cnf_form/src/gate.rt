//! A gate as clauses.

ghost use Rattle.std.specs.Prelude.{◌≡◌, ◌<◌, ◌≤◌, ◌↔◌, true, ◌+◌, [], ◌∷◌, length, IfOk, if◌then◌else◌};
ghost use Rattle.cfj_logic.specs.Logs.{AreSettledByFeatures, AreWellFormed, ExtendsToModel};
ghost use Rattle.cfj_logic.specs.Selections.{Chosen};
ghost use Rattle.cond_circuit.specs.Gates.{value};
ghost use Rattle.cnf_form.specs.GateClauses.{AreClausesFor, AreClausesOf};

use crate::literals::{add, add_gate, literal, own_variables, variable};
use crate::marks::reached;
use cfj_logic::Clauses;
use cfj_words::Items;
use cond_circuit::Circuit;
use std::alloc::{AllocError, Global};

/// The clauses of a constant: none where it is true, and the empty one where it is false.
fn clauses_of_constant(alloc: Global, features: u8, value: bool) -> Result<Clauses, AllocError>
    ensures { IfOk result (λ c. c ≡ record { features = features; vars = features; list = (if value then [] else ([] ∷ [])) }) }
{
    let mut list = Vec::new(alloc);
    if !value {
        list.push(Items::of(Vec::new(alloc)))?;
    }
    Ok(Clauses {
        features,
        vars: u64::from(features),
        list: Items::of(list),
    })
}

/// The clauses of a gate that is no constant.
fn clauses_for(alloc: Global, circuit: &Circuit, top: u64) -> Result<Clauses, AllocError>
    requires { top < length circuit.now.parts }
    ensures { IfOk result (λ c. AreClausesFor circuit.now top c) }
{
    let _gates = circuit.gates();
    let features = circuit.features();
    let reached = reached(alloc, circuit, top)?;
    let mut list = Vec::new(alloc);
    let mut variables = Vec::new(alloc);
    let mut vars = u64::from(features);
    'gates: for gate in 0..top + 1 {
        let part = circuit.part(gate);
        let is_reached = reached[gate as usize];
        let number = variable(part, vars);
        add_gate(
            alloc,
            &mut list,
            is_reached,
            variables.as_slice(),
            number,
            part,
        )?;
        variables.push(number)?;
        vars += own_variables(is_reached, part);
    }
    add(alloc, &mut list, &[literal(variables[top as usize], true)])?;
    Ok(Clauses {
        features,
        vars,
        list: Items::of(list),
    })
}

/// The clauses of a gate of the circuit, constant or not.
fn listed(alloc: Global, circuit: &Circuit, gate: u64) -> Result<Clauses, AllocError>
    requires { gate < length circuit.now.parts }
    ensures { IfOk result (λ c. AreClausesOf circuit.now gate c) }
{
    match gate {
        0 => clauses_of_constant(alloc, circuit.features(), false),
        1 => clauses_of_constant(alloc, circuit.features(), true),
        _ => clauses_for(alloc, circuit, gate),
    }
}

/// The clauses of a gate of the circuit.
///
/// # Errors
///
/// There is no memory for them.
pub fn clauses_of(alloc: Global, circuit: &Circuit, gate: u64) -> Result<Clauses, AllocError>
    requires { gate < length circuit.now.parts }
    ensures clauses { IfOk result (λ c. AreClausesOf circuit.now gate c) }
    ensures formed { IfOk result (λ c. AreWellFormed c) }
    ensures settled { IfOk result (λ c. AreSettledByFeatures c) }
    ensures extends { IfOk result (λ c. (s : Chosen) → ExtendsToModel c s ↔ (value s circuit.now.parts gate ≡ true)) }
{
    let _kept = circuit.features();
    listed(alloc, circuit, gate)
}
