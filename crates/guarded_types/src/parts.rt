//! How long the chain of a class is.

ghost use Rattle.std.specs.Prelude.{◌≡◌, ◌∷◌, [], true, IfOk, length};
ghost use Rattle.cfj_logic.specs.Selections.{Chosen};
ghost use Rattle.cfj_model.specs.LookUps.{chain};
ghost use Rattle.cfj_model.specs.Projection.{is_present, projected};
ghost use Rattle.cond_circuit.specs.Gates.{Grown, value};
ghost use Rattle.guarded_seq.specs.Sequences.{AreInside, present};

use crate::firsts::push;
use crate::marks::holds;
use cfj_model::{Colors, Name, Project};
use class_table::ClassTable;
use cond_circuit::Circuit;
use guarded_seq::Guarded;
use std::alloc::{AllocError, Global};

/// How many classes the chain of a class has, each number that is possible with a gate, by who stands within these marks: under each
/// selection under which these hold, one number remains, and is that of the classes of the variant's chain.
///
/// The variant's chain is that front part of the line's.
///
/// # Errors
///
/// There is no memory for them, or for a gate.
pub fn parts_within<'a>(
    alloc: Global,
    project: &'a Project,
    table: &ClassTable<'a>,
    circuit: &mut Circuit,
    within: Colors,
    class: &Name,
) -> Result<Vec<Guarded<usize>>, AllocError>
    requires table { table.now ≡ project.now.classes }
    requires features { circuit.old.features ≡ length project.now.model.features }
    ensures grown { Grown circuit.old circuit.new }
    ensures inside { IfOk result (λ found. AreInside circuit.new found.items) }
    ensures parts { IfOk result (λ found. (s : Chosen) → is_present s within ≡ true → present (value s circuit.new.parts) found.items
        ≡ length (chain (projected s project.now).classes class.now) ∷ []) }
{
    let _features = project.model();
    let chain = table.chain(class);
    let mut found: Vec<Guarded<usize>> = Vec::new(alloc);
    let mut up = Colors::empty();
    let mut reached = circuit.constant(true);
    let _never = circuit.constant(false);
    'each: for place in 0..chain.len() {
        let class = chain[place];
        up = up.union(class.colors);
        let next = holds(circuit, within, up)?;
        let left = circuit.not(next)?;
        let here = circuit.and(reached, left)?;
        push(&mut found, here, place)?;
        reached = next;
    }
    push(&mut found, reached, chain.len())?;
    Ok(found)
}
