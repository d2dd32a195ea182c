//! Whether two sequences differ.

ghost use Rattle.std.specs.Prelude.{◌≡◌, ◌<◌, All, IfOk, length};
ghost use Rattle.cond_circuit.specs.Gates.{Grown, Is, value};
ghost use Rattle.guarded_seq.specs.Sequences.{AreInside, labels_differ};

use crate::common::{common_back, common_front};
use crate::guarded::Guarded;
use crate::rows::{alike, first_row, gates_of, next_row};
use cond_circuit::Circuit;
use std::alloc::{AllocError, Global};

/// The gate that is true where the sequences that remain differ as lists.
///
/// # Errors
///
/// There is no memory for it.
pub fn labels_differ<T: Eq>(
    alloc: Global,
    circuit: &mut Circuit,
    left: &[Guarded<T>],
    right: &[Guarded<T>],
) -> Result<u64, AllocError>
    requires left { AreInside circuit.old left.now }
    requires right { AreInside circuit.old right.now }
    ensures grown { Grown circuit.old circuit.new }
    ensures worth { IfOk result (λ g. Is circuit.new g (λ s.
        labels_differ T.eq (value s circuit.old.parts) left.now right.now)) }
{
    let front = common_front(left, right);
    differ_behind(alloc, circuit, &left[front..], &right[front..])
}

/// The same, where nothing is looked for at the front.
fn differ_behind<T: Eq>(
    alloc: Global,
    circuit: &mut Circuit,
    left: &[Guarded<T>],
    right: &[Guarded<T>],
) -> Result<u64, AllocError>
    requires left { AreInside circuit.old left.now }
    requires right { AreInside circuit.old right.now }
    ensures grown { Grown circuit.old circuit.new }
    ensures worth { IfOk result (λ g. Is circuit.new g (λ s.
        labels_differ T.eq (value s circuit.old.parts) left.now right.now)) }
{
    let back = common_back(left, right);
    differ_between(
        alloc,
        circuit,
        &left[..left.len() - back],
        &right[..right.len() - back],
    )
}

/// The same, by the whole table, of which one row is kept.
fn differ_between<T: Eq>(
    alloc: Global,
    circuit: &mut Circuit,
    left: &[Guarded<T>],
    right: &[Guarded<T>],
) -> Result<u64, AllocError>
    requires left { AreInside circuit.old left.now }
    requires right { AreInside circuit.old right.now }
    ensures grown { Grown circuit.old circuit.new }
    ensures worth { IfOk result (λ g. Is circuit.new g (λ s.
        labels_differ T.eq (value s circuit.old.parts) left.now right.now)) }
{
    let gates = gates_of(alloc, right)?;
    let mut row = first_row(alloc, circuit, gates.as_slice())?;
    for i in 0..left.len() {
        let guarded = &left[i];
        let same = alike(alloc, &guarded.item, right)?;
        row = next_row(
            alloc,
            circuit,
            guarded.gate,
            gates.as_slice(),
            same.as_slice(),
            row.as_slice(),
        )?;
    }
    Ok(row[right.len()])
}
