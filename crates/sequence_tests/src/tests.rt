//! Short sequences under every selection of five features, against a plain walk over what remains of them.

ghost use Rattle.std.specs.Prelude.{◌≡◌, ◌≤◌, ◌<◌, length, IsTrue};
ghost use Rattle.guarded_seq.specs.Sequences.{AreInside};

use cfj_logic::Selection;
use cond_circuit::Circuit;
use guarded_seq::{Guarded, labels_differ, lengths_differ, matched, ranks};
use std::alloc::{AllocError, Global};
use std::test::Fail;

/// The number of features.
const FEATURES: u8 = 5;

/// The next number of a plain generator.
fn next(state: &mut u32) -> u32 {
    *state = state.wrapping_mul(1_664_525).wrapping_add(1_013_904_223);
    *state >> 16
}

/// Whether each item's gate is one of the circuit.
fn fits(circuit: &Circuit, items: &[Guarded<u8>]) -> bool
    ensures { IsTrue result → AreInside circuit.now items.now }
{
    let gates = circuit.gates();
    items.iter().all(|guarded| guarded.gate < gates)
}

/// Whether the gate is one of the circuit, and is true under the selection.
fn is_true(circuit: &Circuit, gate: u64, selection: &Selection) -> bool {
    gate < circuit.gates()
        && selection.features() == circuit.features()
        && circuit.eval(gate, selection)
}

/// The selection of the features whose bits are set.
fn selection_of(on: u32) -> Selection {
    let mut selection = Selection::none(FEATURES);
    for feature in 0..FEATURES {
        if on >> (feature as u32) & 1 == 1 && feature < selection.features() {
            selection = selection.with(feature);
        }
    }
    selection
}

/// The labels that remain.
fn remaining(
    alloc: Global,
    circuit: &Circuit,
    items: &[Guarded<u8>],
    selection: &Selection,
) -> Result<Vec<u8>, AllocError> {
    let mut found = Vec::new(alloc);
    for guarded in items {
        if is_true(circuit, guarded.gate, selection) {
            found.push(guarded.item)?;
        }
    }
    Ok(found)
}

/// The place of an item among those that remain, if it does.
fn place(
    circuit: &Circuit,
    items: &[Guarded<u8>],
    i: usize,
    selection: &Selection,
) -> Option<usize> {
    let mut before = 0usize;
    for at in 0..items.len() {
        let here = is_true(circuit, items[at].gate, selection);
        if at == i {
            return if here { Some(before) } else { None };
        }
        if here {
            before = before.saturating_add(1);
        }
    }
    None
}

/// Some gates: the constants, each feature and its opposite, and some pairs.
fn some_gates(alloc: Global, circuit: &mut Circuit) -> Result<Vec<u64>, AllocError> {
    let mut gates = Vec::new(alloc);
    gates.push(0)?;
    gates.push(1)?;
    for feature in 0..FEATURES {
        if feature < circuit.features() {
            let gate = circuit.feat(feature)?;
            gates.push(gate)?;
            if gate < circuit.gates() {
                gates.push(circuit.not(gate)?)?;
            }
        }
    }
    let (left, right) = (2, 4);
    if right < circuit.gates() && left < circuit.gates() {
        gates.push(circuit.and(left, right)?)?;
    }
    Ok(gates)
}

/// One of the gates.
fn some_gate(gates: &[u64], state: &mut u32) -> u64 {
    let place = next(state) as usize;
    if gates.is_empty() {
        return 0;
    }
    gates[place % gates.len()]
}

/// A sequence of up to four items with three labels.
fn sequence(alloc: Global, gates: &[u64], state: &mut u32) -> Result<Vec<Guarded<u8>>, AllocError> {
    let mut items = Vec::new(alloc);
    for _ in 0..next(state) % 5 {
        let gate = some_gate(gates, state);
        let item = (next(state) % 3) as u8;
        items.push(Guarded { gate, item })?;
    }
    Ok(items)
}

/// The sequence with some items left out, and some under another gate or with another label.
fn changed(
    alloc: Global,
    items: &[Guarded<u8>],
    gates: &[u64],
    state: &mut u32,
) -> Result<Vec<Guarded<u8>>, AllocError> {
    let mut found = Vec::new(alloc);
    for guarded in items {
        match next(state) % 8 {
            0 => {}
            1 => found.push(Guarded {
                gate: some_gate(gates, state),
                item: guarded.item,
            })?,
            2 => found.push(Guarded {
                gate: guarded.gate,
                item: (next(state) % 3) as u8,
            })?,
            _ => found.push(Guarded {
                gate: guarded.gate,
                item: guarded.item,
            })?,
        }
    }
    Ok(found)
}

/// Whether both gates say under each selection how the sequences that remain differ.
fn differences_agree(
    alloc: Global,
    circuit: &mut Circuit,
    left: &[Guarded<u8>],
    right: &[Guarded<u8>],
) -> Result<bool, AllocError> {
    if !fits(circuit, left) || !fits(circuit, right) {
        return Ok(false);
    }
    let labels = labels_differ(alloc, circuit, left, right)?;
    if !fits(circuit, left) || !fits(circuit, right) {
        return Ok(false);
    }
    let lengths = lengths_differ(alloc, circuit, left, right)?;
    for on in 0..32u32 {
        let selection = selection_of(on);
        let ours = remaining(alloc, circuit, left, &selection)?;
        let theirs = remaining(alloc, circuit, right, &selection)?;
        if is_true(circuit, labels, &selection) != (ours.as_slice() != theirs.as_slice()) {
            return Ok(false);
        }
        if is_true(circuit, lengths, &selection) != (ours.len() != theirs.len()) {
            return Ok(false);
        }
    }
    Ok(true)
}

/// Whether the gate says under each selection whether both items remain at one place.
fn match_agrees(
    circuit: &Circuit,
    gate: u64,
    left: &[Guarded<u8>],
    i: usize,
    right: &[Guarded<u8>],
    k: usize,
) -> bool {
    for on in 0..32u32 {
        let selection = selection_of(on);
        let ours = place(circuit, left, i, &selection);
        let theirs = place(circuit, right, k, &selection);
        if is_true(circuit, gate, &selection) != (ours.is_some() && ours == theirs) {
            return false;
        }
    }
    true
}

/// Whether `matched` is right at two places.
fn single_agrees(
    alloc: Global,
    circuit: &mut Circuit,
    left: &[Guarded<u8>],
    i: usize,
    right: &[Guarded<u8>],
    k: usize,
) -> Result<bool, AllocError> {
    if i >= left.len() || k >= right.len() || !fits(circuit, left) || !fits(circuit, right) {
        return Ok(false);
    }
    let gate = matched(alloc, circuit, left, i, right, k)?;
    Ok(match_agrees(circuit, gate, left, i, right, k))
}

#[test]
fn gates_agree_with_a_walk(rt: HostRuntime) -> Result<(), Fail> {
    let alloc = rt.alloc();
    let mut state = 17;
    for round in 0..300u32 {
        let mut circuit = Circuit::new(alloc, FEATURES)?;
        let gates = some_gates(alloc, &mut circuit)?;
        let left = sequence(alloc, gates.as_slice(), &mut state)?;
        let other = sequence(alloc, gates.as_slice(), &mut state)?;
        let near = changed(alloc, left.as_slice(), gates.as_slice(), &mut state)?;
        assert!(rt;
            differences_agree(alloc, &mut circuit, left.as_slice(), other.as_slice())?,
            "two sequences, round {round}"
        );
        assert!(rt;
            differences_agree(alloc, &mut circuit, left.as_slice(), near.as_slice())?,
            "a changed sequence, round {round}"
        );
    }
    Ok(())
}

/// Whether the gate of a table is right at two places.
fn table_agrees(
    alloc: Global,
    circuit: &mut Circuit,
    left: &[Guarded<u8>],
    i: usize,
    right: &[Guarded<u8>],
    k: usize,
) -> Result<bool, AllocError> {
    if i >= left.len() || k >= right.len() || !fits(circuit, left) || !fits(circuit, right) {
        return Ok(false);
    }
    let table = ranks(alloc, circuit, left, right)?;
    let gate = table.matched(circuit, i, k)?;
    Ok(match_agrees(circuit, gate, left, i, right, k))
}

/// Whether all matches of two sequences are right.
fn matches_agree(
    alloc: Global,
    circuit: &mut Circuit,
    left: &[Guarded<u8>],
    right: &[Guarded<u8>],
) -> Result<bool, AllocError> {
    let mut agrees = true;
    for i in 0..left.len() {
        for k in 0..right.len() {
            let single = single_agrees(alloc, circuit, left, i, right, k)?;
            let table = table_agrees(alloc, circuit, left, i, right, k)?;
            agrees = agrees && single && table;
        }
    }
    Ok(agrees)
}

#[test]
fn matches_agree_with_a_walk(rt: HostRuntime) -> Result<(), Fail> {
    let alloc = rt.alloc();
    let mut state = 23;
    for round in 0..40u32 {
        let mut circuit = Circuit::new(alloc, FEATURES)?;
        let gates = some_gates(alloc, &mut circuit)?;
        let left = sequence(alloc, gates.as_slice(), &mut state)?;
        let other = sequence(alloc, gates.as_slice(), &mut state)?;
        let near = changed(alloc, left.as_slice(), gates.as_slice(), &mut state)?;
        assert!(rt;
            matches_agree(alloc, &mut circuit, left.as_slice(), other.as_slice())?,
            "two sequences, round {round}"
        );
        assert!(rt;
            matches_agree(alloc, &mut circuit, left.as_slice(), near.as_slice())?,
            "a changed sequence, round {round}"
        );
    }
    Ok(())
}

/// So many items under different gates.
fn many(alloc: Global, gates: &[u64], count: u32) -> Result<Vec<Guarded<u8>>, AllocError> {
    let mut state = 5;
    let mut items = Vec::new(alloc);
    for _ in 0..count {
        let gate = some_gate(gates, &mut state);
        let item = (next(&mut state) % 200) as u8;
        items.push(Guarded { gate, item })?;
    }
    Ok(items)
}

/// Whether no gate is needed to say that these don't differ.
fn is_alike(
    alloc: Global,
    circuit: &mut Circuit,
    left: &[Guarded<u8>],
    right: &[Guarded<u8>],
) -> Result<bool, AllocError> {
    if !fits(circuit, left) || !fits(circuit, right) {
        return Ok(false);
    }
    let before = circuit.gates();
    let gate = labels_differ(alloc, circuit, left, right)?;
    Ok(gate == 0 && circuit.gates() == before)
}

#[test]
fn repeated_sequences_need_no_gate(rt: HostRuntime) -> Result<(), Fail> {
    let alloc = rt.alloc();
    let mut circuit = Circuit::new(alloc, FEATURES)?;
    let gates = some_gates(alloc, &mut circuit)?;
    let left = many(alloc, gates.as_slice(), 2_000)?;
    let right = many(alloc, gates.as_slice(), 2_000)?;
    assert!(rt;
        is_alike(alloc, &mut circuit, left.as_slice(), right.as_slice())?,
        "2,000 items"
    );
    Ok(())
}
