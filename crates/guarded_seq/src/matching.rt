//! Whether two items match.

ghost use Rattle.std.specs.Prelude.{◌<◌, IfOk, length};
ghost use Rattle.cond_circuit.specs.Gates.{Grown, Is, value};
ghost use Rattle.guarded_seq.specs.Sequences.{AreInside, gates_of, is_matched};

use crate::guarded::Guarded;
use crate::rank_table::ranks;
use cond_circuit::Circuit;
use std::alloc::{AllocError, Global};

/// The gate that is true where both items are present and have the same rank among the present ones.
///
/// # Errors
///
/// There is no memory for it.
pub fn matched<A, B>(
    alloc: Global,
    circuit: &mut Circuit,
    left: &[Guarded<A>],
    i: usize,
    right: &[Guarded<B>],
    k: usize,
) -> Result<u64, AllocError>
    requires left { AreInside circuit.old left.now }
    requires right { AreInside circuit.old right.now }
    requires places { (i < length left.now) × (k < length right.now) }
    ensures grown { Grown circuit.old circuit.new }
    ensures worth { IfOk result (λ g. Is circuit.new g (λ s.
        is_matched (value s circuit.old.parts) (gates_of left.now) i (gates_of right.now) k)) }
{
    let table = ranks(alloc, circuit, &left[..i + 1], &right[..k + 1])?;
    table.matched(circuit, i, k)
}
