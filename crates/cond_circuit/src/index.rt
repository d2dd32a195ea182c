//! The gates of a circuit by their parts.

ghost use Rattle.std.specs.BTreeMap.{IsUnchanged, get};
ghost use Rattle.std.specs.Ordering.{is_eq};
ghost use Rattle.std.specs.Prelude.{◌≡◌, ◌++◌, ◌∷◌, [], length, IfOk, OnOk, OnErr, None, Some, if◌then◌else◌};
ghost use Rattle.cond_circuit.specs.Folding.{place_of};
ghost use Rattle.cond_circuit.specs.Indexes.{IsIndex, part_cmp};

use crate::part::Part;
use std::alloc::AllocError;
use std::collections::BTreeMap;

/// The gate with this part.
pub fn gate_of(index: &BTreeMap<Part, u64>, parts: &[Part], part: Part) -> Option<u64>
    requires { IsIndex parts.now index.now }
    ensures { result ≡ place_of parts.now part }
{
    index.get(&part).copied()
}

/// Gives a part this gate.
fn insert(index: &mut BTreeMap<Part, u64>, part: Part, gate: u64) -> Result<(), AllocError>
    ensures found { OnOk result ((q : Part) → get part_cmp index.new q ≡ (if is_eq (part_cmp part q) then Some gate else get part_cmp index.old q)) }
    ensures unchanged { OnErr result (IsUnchanged index.old index.new) }
{
    index.insert(part, gate)?;
    Ok(())
}

/// Adds a part that isn't there as the last gate, and gives the gate's number.
pub fn append(
    parts: &mut Vec<Part>,
    index: &mut BTreeMap<Part, u64>,
    part: Part,
) -> Result<u64, AllocError>
    requires indexed { IsIndex parts.old.items index.old }
    requires absent { place_of parts.old.items part ≡ None }
    ensures gate { IfOk result (λ g. g ≡ length parts.old.items) }
    ensures parts { OnOk result (parts.new.items ≡ parts.old.items ++ part ∷ []) }
    ensures unchanged { OnErr result (parts.new.items ≡ parts.old.items) }
    ensures indexed { IsIndex parts.new.items index.new }
{
    let gate = parts.len() as u64;
    parts.push(part)?;
    match insert(index, part, gate) {
        Ok(()) => Ok(gate),
        Err(error) => {
            parts.pop();
            Err(error)
        }
    }
}
