//! Laws of a gate's clauses.

ghost use Rattle.std.specs.Prelude.{◌≡◌, ◌<◌, ◌↔◌, length, true};
ghost use Rattle.cfj_logic.specs.Logs.{AreSettledByFeatures, ExtendsToModel};
ghost use Rattle.cond_circuit.specs.Gates.{value};
ghost use Rattle.cnf_form.specs.GateClauses.{AreClausesOf};

use cfj_logic::{Clauses, Selection};
use cond_circuit::Circuit;

/// A law: a selection extends to a model of a gate's clauses exactly where the gate is true under it.
pub fn extends_where_true(circuit: &Circuit, gate: u64, clauses: &Clauses, selection: &Selection)
    requires gate { gate < length circuit.now.parts }
    requires clauses { AreClausesOf circuit.now gate clauses.now }
    ensures { ExtendsToModel clauses.now selection.now ↔ (value selection.now circuit.now.parts gate ≡ true) }
{
    let _kept = circuit.features();
}

/// A law: a gate's clauses are settled by the features. Once those have values, unit clauses lead to a falsified clause or to a model.
pub fn settled_by_features(circuit: &Circuit, gate: u64, clauses: &Clauses)
    requires gate { gate < length circuit.now.parts }
    requires clauses { AreClausesOf circuit.now gate clauses.now }
    ensures { AreSettledByFeatures clauses.now }
{
    let _kept = circuit.features();
}
