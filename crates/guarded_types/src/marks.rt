//! Marks as gates.

ghost use Rattle.std.specs.Prelude.{◌≡◌, ◌<◌, ◌&&◌, ◌||◌, not, true, IfOk, IsTrue, length};
ghost use Rattle.cfj_logic.specs.Sides.{is_over};
ghost use Rattle.cfj_model.specs.Coloring.{has_mark};
ghost use Rattle.cfj_model.specs.Projection.{is_present};
ghost use Rattle.cond_circuit.specs.Gates.{Grown, Is, value};
ghost use Rattle.guarded_types.specs.Within.{IsWithin, mark_holds, marks_hold_at};

use cfj_model::Colors;
use cond_circuit::Circuit;
use std::alloc::AllocError;

/// The gate of one mark: true where its feature is selected, or where it isn't, if the mark is `off`.
fn mark_gate(circuit: &mut Circuit, feature: u8, off: bool) -> Result<u64, AllocError>
    requires { feature < circuit.old.features }
    ensures grown { Grown circuit.old circuit.new }
    ensures worth { IfOk result (λ g. Is circuit.new g (λ s. mark_holds s off feature)) }
{
    let selected = circuit.feat(feature)?;
    if off {
        circuit.not(selected)
    } else {
        Ok(selected)
    }
}

/// The gate that is true where another is and where the mark of this sign holds, if it is one of the marks.
fn with_mark(
    circuit: &mut Circuit,
    within: Colors,
    marks: Colors,
    gate: u64,
    feature: u8,
    off: bool,
) -> Result<u64, AllocError>
    requires feature { feature < circuit.old.features }
    requires gate { gate < length circuit.old.parts }
    ensures grown { Grown circuit.old circuit.new }
    ensures worth { IfOk result (λ g. IsWithin circuit.new within g (λ s.
        value s circuit.old.parts gate && (not (has_mark off feature marks) || mark_holds s off feature))) }
{
    let _features = circuit.features();
    if !marks.has(feature, off) {
        return Ok(gate);
    }
    if within.has(feature, off) {
        return Ok(gate);
    }
    let mark = mark_gate(circuit, feature, off)?;
    circuit.and(gate, mark)
}

/// The gate that is true where another is and where the marks of a feature hold.
fn with_marks(
    circuit: &mut Circuit,
    within: Colors,
    marks: Colors,
    gate: u64,
    feature: u8,
) -> Result<u64, AllocError>
    requires feature { feature < circuit.old.features }
    requires gate { gate < length circuit.old.parts }
    ensures grown { Grown circuit.old circuit.new }
    ensures worth { IfOk result (λ g. IsWithin circuit.new within g (λ s. value s circuit.old.parts gate && marks_hold_at s marks feature)) }
{
    let wanted = with_mark(circuit, within, marks, gate, feature, false)?;
    with_mark(circuit, within, marks, wanted, feature, true)
}

/// The gate that is true where marks all hold, mark by mark.
fn each_mark(circuit: &mut Circuit, within: Colors, marks: Colors) -> Result<u64, AllocError>
    requires { IsTrue (is_over circuit.old.features marks) }
    ensures grown { Grown circuit.old circuit.new }
    ensures worth { IfOk result (λ g. IsWithin circuit.new within g (λ s. is_present s marks)) }
{
    let features = circuit.features();
    let whole = within.union(marks);
    let mut gate = circuit.constant(true);
    'each: for feature in 0..features {
        if whole.has(feature, false) && whole.has(feature, true) {
            return Ok(circuit.constant(false));
        }
        gate = with_marks(circuit, within, marks, gate, feature)?;
    }
    Ok(gate)
}

/// The gate that is true where marks all hold, by who stands within other marks: gate 1 where they are among these, gate 0 where they
/// contradict each other or these, and else the `and` of those that are missing. Where the other marks don't hold it says nothing.
///
/// # Errors
///
/// There is no memory for it.
pub fn holds(circuit: &mut Circuit, within: Colors, marks: Colors) -> Result<u64, AllocError>
    requires { IsTrue (is_over circuit.old.features marks) }
    ensures grown { Grown circuit.old circuit.new }
    ensures worth { IfOk result (λ g. IsWithin circuit.new within g (λ s. is_present s marks)) }
{
    if within.union(marks) == within {
        return Ok(circuit.constant(true));
    }
    each_mark(circuit, within, marks)
}
