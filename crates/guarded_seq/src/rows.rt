//! Rows of gates that tell where the first items of two sequences differ.

ghost use Rattle.std.specs.Prelude.{◌≡◌, ◌+◌, ◌<◌, All, IfOk, length, map, not, ◌||◌, if◌then◌else◌};
ghost use Rattle.cond_circuit.specs.Gates.{Grown, Is, value};
ghost use Rattle.guarded_seq.specs.Rows.{AreCells, first_cells, next_cells};
ghost use Rattle.guarded_seq.specs.Sequences.{gates_of};

use crate::guarded::Guarded;
use cond_circuit::Circuit;
use std::alloc::{AllocError, Global};

/// The gates of the items.
pub fn gates_of<T>(alloc: Global, items: &[Guarded<T>]) -> Result<Vec<u64>, AllocError>
    ensures { IfOk result (λ v. v.items ≡ gates_of items.now) }
{
    let mut gates = Vec::new(alloc);
    for guarded in items {
        gates.push(guarded.gate)?;
    }
    Ok(gates)
}

/// Which items have this label.
pub fn alike<T: Eq>(alloc: Global, label: &T, items: &[Guarded<T>]) -> Result<Vec<bool>, AllocError>
    ensures { IfOk result (λ v. v.items ≡ map (λ g. T.eq label.now g.item) items.now) }
{
    let mut found = Vec::new(alloc);
    for guarded in items {
        found.push(*label == guarded.item)?;
    }
    Ok(found)
}

/// The gate that has the value of `yes` where the test is true, and of `no` elsewhere.
fn choose(circuit: &mut Circuit, test: u64, yes: u64, no: u64) -> Result<u64, AllocError>
    requires test { test < length circuit.old.parts }
    requires yes { yes < length circuit.old.parts }
    requires no { no < length circuit.old.parts }
    ensures grown { Grown circuit.old circuit.new }
    ensures worth { IfOk result (λ g. Is circuit.new g (λ s.
        if value s circuit.old.parts test then value s circuit.old.parts yes else value s circuit.old.parts no)) }
{
    if yes == no {
        return Ok(yes);
    }
    let chosen = circuit.and(test, yes)?;
    let fails = circuit.not(test)?;
    let other = circuit.and(fails, no)?;
    circuit.or(chosen, other)
}

/// Where two present items lead to different sequences: everywhere for two labels, and else where what is before them does.
fn pair(circuit: &Circuit, alike: bool, before: u64) -> u64
    requires { before < length circuit.now.parts }
    ensures { Is circuit.now result (λ s. not alike || value s circuit.now.parts before) }
{
    if alike {
        before
    } else {
        circuit.constant(true)
    }
}

/// A cell, by the items' gates, whether their labels are equal, and the cells before both, before the right one, and before the left.
fn cell(
    circuit: &mut Circuit,
    left: u64,
    right: u64,
    alike: bool,
    corner: u64,
    beside: u64,
    above: u64,
) -> Result<u64, AllocError>
    requires left { left < length circuit.old.parts }
    requires right { right < length circuit.old.parts }
    requires corner { corner < length circuit.old.parts }
    requires beside { beside < length circuit.old.parts }
    requires above { above < length circuit.old.parts }
    ensures grown { Grown circuit.old circuit.new }
    ensures worth { IfOk result (λ g. Is circuit.new g (λ s.
        if value s circuit.old.parts left
        then (if value s circuit.old.parts right
        then (not alike || value s circuit.old.parts corner)
        else value s circuit.old.parts beside)
        else value s circuit.old.parts above)) }
{
    let both = pair(circuit, alike, corner);
    let here = choose(circuit, right, both, beside)?;
    choose(circuit, left, here, above)
}

/// The row of no items: each cell is true where an item before its place is present.
pub fn first_row(
    alloc: Global,
    circuit: &mut Circuit,
    right: &[u64],
) -> Result<Vec<u64>, AllocError>
    requires { All (λ g. g < length circuit.old.parts) right.now }
    ensures grown { Grown circuit.old circuit.new }
    ensures row { IfOk result (λ r.
        AreCells circuit.new r.items (length right.now + 1) (first_cells circuit.old right.now)) }
{
    let mut cells = Vec::new(alloc);
    let mut some = circuit.constant(false);
    cells.push(some)?;
    for gate in right {
        some = circuit.or(some, *gate)?;
        cells.push(some)?;
    }
    Ok(cells)
}

/// The row behind another: that of one item more, by its gate and which items of the right sequence have its label.
pub fn next_row(
    alloc: Global,
    circuit: &mut Circuit,
    gate: u64,
    right: &[u64],
    alike: &[bool],
    row: &[u64],
) -> Result<Vec<u64>, AllocError>
    requires gate { gate < length circuit.old.parts }
    requires right { All (λ g. g < length circuit.old.parts) right.now }
    requires alike { length alike.now ≡ length right.now }
    requires row { All (λ g. g < length circuit.old.parts) row.now }
    requires long { length row.now ≡ length right.now + 1 }
    ensures grown { Grown circuit.old circuit.new }
    ensures row { IfOk result (λ r.
        AreCells circuit.new r.items (length right.now + 1) (next_cells circuit.old gate right.now alike.now row.now)) }
{
    let mut cells = Vec::new(alloc);
    cells.push(circuit.or(row[0], gate)?)?;
    for j in 0..right.len() {
        let made = cell(
            circuit,
            gate,
            right[j],
            alike[j],
            row[j],
            cells[j],
            row[j + 1],
        )?;
        cells.push(made)?;
    }
    Ok(cells)
}
