//! Which names are known, and which classes are below others.

ghost use Rattle.std.specs.Prelude.{◌≡◌, ◌<◌, ◌&&◌, ◌||◌, true, IfOk, IsTrue, length};
ghost use Rattle.std.specs.List.{list_any};
ghost use Rattle.std.specs.Str.{bytes_eq};
ghost use Rattle.cfj_logic.specs.Sides.{is_over};
ghost use Rattle.cfj_model.specs.LookUps as spec;
ghost use Rattle.cfj_model.specs.Projection.{is_present, projected};
ghost use Rattle.cond_circuit.specs.Gates.{Grown, value};
ghost use Rattle.guarded_types.specs.Within.{IsWithin};

use crate::marks::holds;
use cfj_model::{Class, Colors, Name, Project};
use class_table::ClassTable;
use cond_circuit::Circuit;
use std::alloc::AllocError;

/// The gate that is true where the variant knows a name, by who stands within these marks: a class is known where it is there, and
/// `Object` everywhere.
///
/// # Errors
///
/// There is no memory for a gate.
pub fn known_within<'a>(
    project: &'a Project,
    table: &ClassTable<'a>,
    circuit: &mut Circuit,
    within: Colors,
    class: &Name,
) -> Result<u64, AllocError>
    requires table { table.now ≡ project.now.classes }
    requires features { circuit.old.features ≡ length project.now.model.features }
    ensures grown { Grown circuit.old circuit.new }
    ensures worth { IfOk result (λ g. IsWithin circuit.new within g (λ s. spec.is_known (projected s project.now).classes class.now)) }
{
    let _features = project.model();
    if class.text() == "Object" {
        return Ok(circuit.constant(true));
    }
    let chain = table.chain(class);
    if chain.is_empty() {
        return Ok(circuit.constant(false));
    }
    holds(circuit, within, chain[0].colors)
}

/// The gate that is true where another is, or where these marks hold and a class has this superclass.
fn with_class(
    circuit: &mut Circuit,
    within: Colors,
    marks: Colors,
    class: &Class,
    upper: &Name,
    gate: u64,
) -> Result<u64, AllocError>
    requires marks { IsTrue (is_over circuit.old.features marks) }
    requires gate { gate < length circuit.old.parts }
    ensures grown { Grown circuit.old circuit.new }
    ensures worth { IfOk result (λ g. IsWithin circuit.new within g (λ s.
        value s circuit.old.parts gate || (bytes_eq class.now.parent upper.now && is_present s marks))) }
{
    if class.parent.text() != upper.text() {
        return Ok(gate);
    }
    let there = holds(circuit, within, marks)?;
    circuit.or(gate, there)
}

/// The gate that is true where a class of the variant's chain of the lower one has the upper one as its superclass, by who stands within
/// these marks. A class that is found so of itself extends itself.
///
/// # Errors
///
/// There is no memory for a gate.
pub fn extended_within<'a>(
    project: &'a Project,
    table: &ClassTable<'a>,
    circuit: &mut Circuit,
    within: Colors,
    lower: &Name,
    upper: &Name,
) -> Result<u64, AllocError>
    requires table { table.now ≡ project.now.classes }
    requires features { circuit.old.features ≡ length project.now.model.features }
    ensures grown { Grown circuit.old circuit.new }
    ensures worth { IfOk result (λ g. IsWithin circuit.new within g (λ s.
        list_any (λ k. bytes_eq k.parent upper.now) (spec.chain (projected s project.now).classes lower.now))) }
{
    let _features = project.model();
    let chain = table.chain(lower);
    let mut up = Colors::empty();
    let mut found = circuit.constant(false);
    'each: for place in 0..chain.len() {
        let class = chain[place];
        up = up.union(class.colors);
        found = with_class(circuit, within, up, class, upper, found)?;
    }
    Ok(found)
}

/// The gate that is true where a class is another one or below it in the variant, by who stands within these marks.
///
/// # Errors
///
/// There is no memory for a gate.
pub fn subtype_within<'a>(
    project: &'a Project,
    table: &ClassTable<'a>,
    circuit: &mut Circuit,
    within: Colors,
    lower: &Name,
    upper: &Name,
) -> Result<u64, AllocError>
    requires table { table.now ≡ project.now.classes }
    requires features { circuit.old.features ≡ length project.now.model.features }
    ensures grown { Grown circuit.old circuit.new }
    ensures worth { IfOk result (λ g. IsWithin circuit.new within g (λ s. spec.is_subtype (projected s project.now).classes lower.now upper.now)) }
{
    if lower.text() == upper.text() {
        return Ok(circuit.constant(true));
    }
    extended_within(project, table, circuit, within, lower, upper)
}
