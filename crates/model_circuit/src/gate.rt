//! The gate of a feature model.

ghost use Rattle.std.specs.Prelude.{◌≡◌, ◌<◌, ◌&&◌, IfOk, IsTrue, length};
ghost use Rattle.std.specs.List.{list_all};
ghost use Rattle.cfj_logic.specs.Formulas.{truth, is_over};
ghost use Rattle.cond_circuit.specs.Gates.{Grown, Is, value};

use cfj_model::{FeatureModel, Formula};
use cond_circuit::Circuit;
use std::alloc::AllocError;

/// The gate of a feature model: true under a selection exactly where every constraint is, so under the valid ones. The circuit is
/// over the model's features. Gates that were given before keep their values.
///
/// # Errors
///
/// There is no memory for a gate that it needs. Some of the gates that it needed may have been added, and nothing else has changed.
pub fn model_gate(circuit: &mut Circuit, model: &FeatureModel) -> Result<u64, AllocError>
    requires features { circuit.old.features ≡ length model.now.features }
    requires over { IsTrue (list_all (is_over (length model.now.features)) model.now.constraints) }
    ensures grown { Grown circuit.old circuit.new }
    ensures worth { IfOk result (λ g. Is circuit.new g (λ s. list_all (truth s) model.now.constraints)) }
{
    let constraints = model.constraints.slice();
    let mut all = circuit.constant(true);
    'each: for constraint in constraints {
        all = with_constraint(circuit, all, constraint)?;
    }
    Ok(all)
}

/// The gate that is true where a gate and a constraint are.
fn with_constraint(
    circuit: &mut Circuit,
    gate: u64,
    constraint: &Formula,
) -> Result<u64, AllocError>
    requires inside { gate < length circuit.old.parts }
    requires over { IsTrue (is_over circuit.old.features constraint.now) }
    ensures grown { Grown circuit.old circuit.new }
    ensures worth { IfOk result (λ g. Is circuit.new g (λ s. value s circuit.old.parts gate && truth s constraint.now)) }
{
    let holds = circuit.formula(constraint)?;
    circuit.and(gate, holds)
}
