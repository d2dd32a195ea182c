//! The fields that a class has by its name.

ghost use Rattle.std.specs.Prelude.{◌≡◌, ◌++◌, true, All, IfOk, IsTrue, OnOk, length, map, option_map};
ghost use Rattle.cfj_logic.specs.Selections.{Chosen};
ghost use Rattle.cfj_model.specs.Coloring.{no_colors};
ghost use Rattle.cfj_model.specs.LookUps.{field_of};
ghost use Rattle.cfj_model.specs.Projection.{is_present, projected};
ghost use Rattle.class_table.specs.ByName.{seen};
ghost use Rattle.cond_circuit.specs.Gates.{Grown, value};
ghost use Rattle.guarded_seq.specs.Sequences.{AreInside, present};
ghost use Rattle.guarded_types.specs.Along.{along, at_most_one, behind, read, typed_fields};

use crate::firsts::firsts;
use crate::marked::{Marked, push_marked};
use cfj_model::{Class, Colors, Name, Project};
use class_table::ClassTable;
use cond_circuit::Circuit;
use guarded_seq::Guarded;
use std::alloc::{AllocError, Global};

/// The types of the fields of this name that a class itself declares, in a chain of which these are the marks up to the class; behind
/// those that are there.
fn push_fields<'a>(
    found: &mut Vec<Marked<&'a Name>>,
    up: Colors,
    class: &'a Class,
    name: &Name,
) -> Result<(), AllocError>
    ensures { OnOk result (read found.new.items ≡ read found.old.items ++ map (behind up) (typed_fields name.now class.now)) }
{
    let name = name.text();
    'each: for field in class.fields.slice() {
        if field.name.text() == name {
            push_marked(found, up.union(field.colors), &field.of)?;
        }
    }
    Ok(())
}

/// The types of the fields of this name along a chain, with the marks under which a variant's chain has them.
fn fields_along<'a>(
    alloc: Global,
    chain: &[&'a Class],
    name: &Name,
) -> Result<Vec<Marked<&'a Name>>, AllocError>
    ensures { IfOk result (λ found. read found.items ≡ along (typed_fields name.now) no_colors (seen chain.now)) }
{
    let mut found: Vec<Marked<&'a Name>> = Vec::new(alloc);
    let mut up = Colors::empty();
    'each: for class in chain {
        up = up.union(class.colors);
        push_fields(&mut found, up, class, name)?;
    }
    Ok(found)
}

/// The types of a field, each with a gate, by who stands within these marks: under each selection under which these hold, one item
/// remains where the variant's look-up finds a declaration, and is its type; else none does.
///
/// # Errors
///
/// There is no memory for them, or for a gate.
pub fn field_within<'a>(
    alloc: Global,
    project: &'a Project,
    table: &ClassTable<'a>,
    circuit: &mut Circuit,
    within: Colors,
    class: &Name,
    field: &Name,
) -> Result<Vec<Guarded<&'a Name>>, AllocError>
    requires table { table.now ≡ project.now.classes }
    requires features { circuit.old.features ≡ length project.now.model.features }
    ensures grown { Grown circuit.old circuit.new }
    ensures inside { IfOk result (λ found. AreInside circuit.new found.items) }
    ensures field { IfOk result (λ found. (s : Chosen) → is_present s within ≡ true → map (λ t. t.now) (present (value s circuit.new.parts) found.items)
        ≡ at_most_one (option_map (λ d. d.of) (field_of (projected s project.now).classes class.now field.now))) }
{
    let _features = project.model();
    let items = fields_along(alloc, table.chain(class), field)?;
    firsts(alloc, circuit, within, items.as_slice())
}
