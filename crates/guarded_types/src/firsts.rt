//! The first of several items that is there.

ghost use Rattle.std.specs.Prelude.{◌≡◌, ◌++◌, ◌<◌, ◌&&◌, ◌||◌, not, true, All, IfOk, IsTrue, OnOk, length};
ghost use Rattle.cfj_logic.specs.Sides.{is_over};
ghost use Rattle.cfj_model.specs.Projection.{is_present};
ghost use Rattle.cond_circuit.specs.Gates.{Grown, Is, value};
ghost use Rattle.guarded_seq.specs.Sequences.{AreInside, present};
ghost use Rattle.guarded_types.specs.Along.{first, there, at_most_one};
ghost use Rattle.guarded_types.specs.Within.{IsOfFirst, IsWithin, pushed};

use crate::marked::Marked;
use crate::marks::holds;
use cfj_model::Colors;
use cond_circuit::Circuit;
use guarded_seq::Guarded;
use std::alloc::{AllocError, Global};

/// An item among others, by gates.
#[derive(Clone, Copy)]
struct Turn {
    /// It is there, and none before it is.
    here: u64,
    /// It is there, or one before it is.
    taken: u64,
}

/// The gates of an item with these marks, behind others of which one is there where a gate is true.
fn turn_of(
    circuit: &mut Circuit,
    within: Colors,
    taken: u64,
    marks: Colors,
) -> Result<Turn, AllocError>
    requires marks { IsTrue (is_over circuit.old.features marks) }
    requires taken { taken < length circuit.old.parts }
    ensures grown { Grown circuit.old circuit.new }
    ensures here { IfOk result (λ t. IsWithin circuit.new within t.here (λ s. not (value s circuit.old.parts taken) && is_present s marks)) }
    ensures taken { IfOk result (λ t. IsWithin circuit.new within t.taken (λ s. value s circuit.old.parts taken || is_present s marks)) }
{
    let there = holds(circuit, within, marks)?;
    let free = circuit.not(taken)?;
    let here = circuit.and(free, there)?;
    let taken = circuit.or(taken, there)?;
    Ok(Turn { here, taken })
}

/// Adds an item that is there where a gate is true, if it ever is.
pub fn push<T: Copy>(found: &mut Vec<Guarded<T>>, gate: u64, item: T) -> Result<(), AllocError>
    ensures { OnOk result (found.new.items ≡ found.old.items ++ pushed gate item) }
{
    if gate != 0 {
        found.push(Guarded { gate, item })?;
    }
    Ok(())
}

/// The items that are the first under some selection, each with the gate of that, by who stands within these marks. Behind an item that
/// is always there nothing is looked at.
///
/// # Errors
///
/// There is no memory for them, or for a gate.
pub fn firsts<T: Copy>(
    alloc: Global,
    circuit: &mut Circuit,
    within: Colors,
    items: &[Marked<T>],
) -> Result<Vec<Guarded<T>>, AllocError>
    requires { All (λ x. IsTrue (is_over circuit.old.features x.marks)) items.now }
    ensures grown { Grown circuit.old circuit.new }
    ensures inside { IfOk result (λ found. AreInside circuit.new found.items) }
    ensures first { IfOk result (λ found. IsOfFirst circuit.new within found.items items.now) }
{
    let mut found: Vec<Guarded<T>> = Vec::new(alloc);
    let always = circuit.constant(true);
    let mut taken = circuit.constant(false);
    'each: for place in 0..items.len() {
        if taken == always {
            return Ok(found);
        }
        let item = items[place];
        let gates = turn_of(circuit, within, taken, item.marks)?;
        push(&mut found, gates.here, item.item)?;
        taken = gates.taken;
    }
    Ok(found)
}
