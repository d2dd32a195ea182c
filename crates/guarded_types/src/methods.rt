//! The methods that a class has by its name.

ghost use Rattle.std.specs.Prelude.{◌≡◌, ◌++◌, true, IfOk, OnOk, length, map};
ghost use Rattle.cfj_logic.specs.Selections.{Chosen};
ghost use Rattle.cfj_model.specs.Coloring.{no_colors};
ghost use Rattle.cfj_model.specs.Projection.{is_present, projected};
ghost use Rattle.class_table.specs.ByName.{seen};
ghost use Rattle.cond_circuit.specs.Gates.{Grown, value};
ghost use Rattle.guarded_seq.specs.Sequences.{AreInside, present};
ghost use Rattle.guarded_types.specs.Along.{along, at_most_one, behind};
ghost use Rattle.guarded_types.specs.Declarations as spec;

use crate::firsts::firsts;
use crate::marked::{Marked, push_marked};
use cfj_model::{Class, Colors, Method, Name, Project};
use class_table::ClassTable;
use cond_circuit::Circuit;
use guarded_seq::Guarded;
use std::alloc::{AllocError, Global};

/// A method, with the class that declares it.
#[derive(Clone, Copy)]
pub struct Declaration<'a> {
    /// The class.
    pub class: &'a Class,
    /// One of its methods.
    pub method: &'a Method,
}

/// The methods of this name that a class itself declares, in a chain of which these are the marks up to the class; behind those that
/// are there.
fn push_methods<'a>(
    found: &mut Vec<Marked<Declaration<'a>>>,
    up: Colors,
    class: &'a Class,
    name: &Name,
) -> Result<(), AllocError>
    ensures { OnOk result (spec.read found.new.items ≡ spec.read found.old.items ++ map (behind up) (spec.named_methods name.now class.now)) }
{
    let name = name.text();
    'each: for method in class.methods.slice() {
        if method.name.text() == name {
            let marks = up.union(method.colors);
            push_marked(found, marks, Declaration { class, method })?;
        }
    }
    Ok(())
}

/// The methods of this name along a chain, with the marks under which a variant's chain has them.
fn methods_along<'a>(
    alloc: Global,
    chain: &[&'a Class],
    name: &Name,
) -> Result<Vec<Marked<Declaration<'a>>>, AllocError>
    ensures { IfOk result (λ found. spec.read found.items ≡ along (spec.named_methods name.now) no_colors (seen chain.now)) }
{
    let mut found: Vec<Marked<Declaration<'a>>> = Vec::new(alloc);
    let mut up = Colors::empty();
    'each: for class in chain {
        up = up.union(class.colors);
        push_methods(&mut found, up, class, name)?;
    }
    Ok(found)
}

/// The declarations of a method, each with a gate, by who stands within these marks: under each selection under which these hold, one
/// item remains where the variant's look-up finds a declaration, and is the line's declaration of which that is left; else none does.
///
/// # Errors
///
/// There is no memory for them, or for a gate.
pub fn method_within<'a>(
    alloc: Global,
    project: &'a Project,
    table: &ClassTable<'a>,
    circuit: &mut Circuit,
    within: Colors,
    class: &Name,
    method: &Name,
) -> Result<Vec<Guarded<Declaration<'a>>>, AllocError>
    requires table { table.now ≡ project.now.classes }
    requires features { circuit.old.features ≡ length project.now.model.features }
    ensures grown { Grown circuit.old circuit.new }
    ensures inside { IfOk result (λ found. AreInside circuit.new found.items) }
    ensures method { IfOk result (λ found. (s : Chosen) → is_present s within ≡ true → map (spec.left_of s) (present (value s circuit.new.parts) found.items)
        ≡ at_most_one (spec.declaration_of (projected s project.now).classes class.now method.now)) }
{
    let _features = project.model();
    let items = methods_along(alloc, table.chain(class), method)?;
    firsts(alloc, circuit, within, items.as_slice())
}
