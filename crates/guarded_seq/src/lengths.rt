//! Whether the lengths of two sequences differ.

ghost use Rattle.std.specs.Prelude.{◌≡◌, IfOk, map};
ghost use Rattle.cond_circuit.specs.Gates.{Grown, Is, value};
ghost use Rattle.guarded_seq.specs.Sequences.{AreInside, lengths_differ};
ghost use Rattle.guarded_seq.specs.Rows.{blank};

use crate::guarded::Guarded;
use crate::sequences::labels_differ;
use cond_circuit::Circuit;
use std::alloc::{AllocError, Global};

/// The items without their labels.
pub fn blanks<T>(alloc: Global, items: &[Guarded<T>]) -> Result<Vec<Guarded<()>>, AllocError>
    ensures { IfOk result (λ v. v.items ≡ map blank items.now) }
{
    let mut found = Vec::new(alloc);
    for guarded in items {
        found.push(Guarded {
            gate: guarded.gate,
            item: (),
        })?;
    }
    Ok(found)
}

/// The gate that is true where the numbers of present items differ.
///
/// # Errors
///
/// There is no memory for it.
pub fn lengths_differ<A, B>(
    alloc: Global,
    circuit: &mut Circuit,
    left: &[Guarded<A>],
    right: &[Guarded<B>],
) -> Result<u64, AllocError>
    requires left { AreInside circuit.old left.now }
    requires right { AreInside circuit.old right.now }
    ensures grown { Grown circuit.old circuit.new }
    ensures worth { IfOk result (λ g. Is circuit.new g (λ s.
        lengths_differ (value s circuit.old.parts) left.now right.now)) }
{
    let left = blanks(alloc, left)?;
    let right = blanks(alloc, right)?;
    labels_differ(alloc, circuit, left.as_slice(), right.as_slice())
}
