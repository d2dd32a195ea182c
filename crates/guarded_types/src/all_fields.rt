//! All fields of a class, those of the classes above it first.

ghost use Rattle.std.specs.Prelude.{◌≡◌, ◌++◌, ◌≤◌, true, All, IfOk, OnOk, length, map, filter};
ghost use Rattle.cfj_logic.specs.Selections.{Chosen};
ghost use Rattle.cfj_model.specs.Coloring.{no_colors};
ghost use Rattle.cfj_model.specs.LookUps.{all_fields, chain};
ghost use Rattle.cfj_model.specs.Projection.{bare_field, is_present, projected};
ghost use Rattle.class_table.specs.ByName.{seen};
ghost use Rattle.cond_circuit.specs.Gates.{Grown, value};
ghost use Rattle.guarded_seq.specs.Sequences.{AreInside, present};
ghost use Rattle.guarded_types.specs.Fields.{AreFieldsOver, own_fields, up_of};

use crate::firsts::push;
use crate::marks::holds;
use cfj_model::{Class, Colors, Field, Name, Project};
use class_table::ClassTable;
use cond_circuit::Circuit;
use guarded_seq::Guarded;
use std::alloc::{AllocError, Global};

/// The marks of classes together.
fn marks_of(chain: &[&Class]) -> Colors
    ensures { result ≡ up_of no_colors (seen chain.now) }
{
    let mut up = Colors::empty();
    'each: for class in chain {
        up = up.union(class.colors);
    }
    up
}

/// Adds fields of a class, each with its gate, by who stands within marks that have those of the class.
fn push_own<'a>(
    circuit: &mut Circuit,
    within: Colors,
    fields: &'a [Field],
    found: &mut Vec<Guarded<&'a Field>>,
) -> Result<(), AllocError>
    requires over { AreFieldsOver circuit.old.features fields.now }
    requires inside { AreInside circuit.old found.old.items }
    ensures grown { Grown circuit.old circuit.new }
    ensures inside { OnOk result (AreInside circuit.new found.new.items) }
    ensures fields { OnOk result ((s : Chosen) → is_present s within ≡ true → map (λ f. f.now) (present (value s circuit.new.parts) found.new.items)
        ≡ map (λ f. f.now) (present (value s circuit.old.parts) found.old.items) ++ filter (λ f. is_present s f.colors) fields.now) }
{
    let _never = circuit.constant(false);
    'each: for field in fields {
        let there = holds(circuit, within, field.colors)?;
        push(found, there, field)?;
    }
    Ok(())
}

/// The fields of the classes of a chain, the last class's first, each with its gate, by who stands within marks that have those of all
/// these classes.
fn fields_of_chain<'a>(
    alloc: Global,
    circuit: &mut Circuit,
    within: Colors,
    chain: &[&'a Class],
) -> Result<Vec<Guarded<&'a Field>>, AllocError>
    requires { All (λ k. AreFieldsOver circuit.old.features k.now.fields) chain.now }
    ensures grown { Grown circuit.old circuit.new }
    ensures inside { IfOk result (λ found. AreInside circuit.new found.items) }
    ensures fields { IfOk result (λ found. (s : Chosen) → is_present s within ≡ true → map (λ f. f.now) (present (value s circuit.new.parts) found.items)
        ≡ own_fields s (seen chain.now)) }
{
    let mut found: Vec<Guarded<&'a Field>> = Vec::new(alloc);
    let count = chain.len();
    'each: for step in 0..count {
        let class = chain[count - 1 - step];
        push_own(circuit, within, class.fields.slice(), &mut found)?;
    }
    Ok(found)
}

/// All fields of a class, those of the classes above it first, in the variants whose chain of the class has so many classes, each with
/// its gate, by who stands within these marks. In other variants the gates say nothing.
///
/// # Errors
///
/// There is no memory for them, or for a gate.
pub fn all_fields_within<'a>(
    alloc: Global,
    project: &'a Project,
    table: &ClassTable<'a>,
    circuit: &mut Circuit,
    within: Colors,
    class: &Name,
    part: usize,
) -> Result<Vec<Guarded<&'a Field>>, AllocError>
    requires table { table.now ≡ project.now.classes }
    requires features { circuit.old.features ≡ length project.now.model.features }
    requires part { part ≤ length (chain project.now.classes class.now) }
    ensures grown { Grown circuit.old circuit.new }
    ensures inside { IfOk result (λ found. AreInside circuit.new found.items) }
    ensures fields { IfOk result (λ found. (s : Chosen) → is_present s within ≡ true → length (chain (projected s project.now).classes class.now) ≡ part
        → map (λ f. bare_field f.now) (present (value s circuit.new.parts) found.items) ≡ all_fields (projected s project.now).classes class.now) }
{
    let _features = project.model();
    let (front, _rest) = table.chain(class).split_at(part);
    let within = within.union(marks_of(front));
    fields_of_chain(alloc, circuit, within, front)
}
