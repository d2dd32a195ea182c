//! The ranks of two sequences' items, compared once for all questions.

ghost use Rattle.std.specs.Prelude.{◌≡◌, ◌<◌, ◌≤◌, ◌-◌, min, [], slice_index_or, IfOk, length, map, not, ◌&&◌};
ghost use Rattle.cond_circuit.specs.Gates.{Grown, Is, value};
ghost use Rattle.guarded_seq.specs.Ranks.{AreRanks, rank_cell};
ghost use Rattle.guarded_seq.specs.Rows.{AreRows};
ghost use Rattle.guarded_seq.specs.Sequences.{AreInside, gates_of, is_matched};

use crate::common::common_front;
use crate::guarded::Guarded;
use crate::lengths::blanks;
use crate::rows::{alike, first_row, gates_of, next_row};
use cond_circuit::Circuit;
use std::alloc::{AllocError, Global};
use std::marker::Model;

/// The ranks of two sequences' items, compared once for all questions.
///
/// It belongs to the circuit that it was made over, also when that has more gates.
#[derive(Drop)]
pub struct RankTable {
    left: Vec<Guarded<()>>,
    right: Vec<Guarded<()>>,
    front: usize,
    rows: Vec<Vec<u64>>,
}

impl Model for RankTable {
    ghost use Rattle.std.specs.Prelude.{map};
    ghost use Rattle.guarded_seq.specs.Ranks.{Ranks};
    ghost use Rattle.guarded_seq.specs.Sequences.{gates_of};

    ghost Value = { Ranks };

    ghost view = { λ r. record {
      left = gates_of r.left.items;
      right = gates_of r.right.items;
      front = r.front;
      rows = map (λ row. row.items) r.rows.items;
    } };
}

/// The ranks of two sequences' items.
///
/// # Errors
///
/// There is no memory for them.
pub fn ranks<A, B>(
    alloc: Global,
    circuit: &mut Circuit,
    left: &[Guarded<A>],
    right: &[Guarded<B>],
) -> Result<RankTable, AllocError>
    requires left { AreInside circuit.old left.now }
    requires right { AreInside circuit.old right.now }
    ensures grown { Grown circuit.old circuit.new }
    ensures left { IfOk result (λ r. r.left ≡ gates_of left.now) }
    ensures right { IfOk result (λ r. r.right ≡ gates_of right.now) }
    ensures ranks { IfOk result (λ r. AreRanks circuit.new r) }
{
    let left = blanks(alloc, left)?;
    let right = blanks(alloc, right)?;
    let front = common_front(left.as_slice(), right.as_slice());
    let rows = rank_rows(
        alloc,
        circuit,
        &left.as_slice()[front..],
        &right.as_slice()[front..],
    )?;
    Ok(RankTable {
        left,
        right,
        front,
        rows,
    })
}

/// A row for each item of the left sequence, and at least one.
fn rank_rows(
    alloc: Global,
    circuit: &mut Circuit,
    left: &[Guarded<()>],
    right: &[Guarded<()>],
) -> Result<Vec<Vec<u64>>, AllocError>
    requires left { AreInside circuit.old left.now }
    requires right { AreInside circuit.old right.now }
    ensures grown { Grown circuit.old circuit.new }
    ensures many { IfOk result (λ v. length left.now ≤ length v.items) }
    ensures rows { IfOk result (λ v. AreRows circuit.old circuit.new left.now right.now (map (λ row. row.items) v.items)) }
{
    let gates = gates_of(alloc, right)?;
    let same = alike(alloc, &(), right)?;
    let mut rows = Vec::new(alloc);
    rows.push(first_row(alloc, circuit, gates.as_slice())?)?;
    for i in 0..left.len().saturating_sub(1) {
        let guarded = &left[i];
        let row = next_row(
            alloc,
            circuit,
            guarded.gate,
            gates.as_slice(),
            same.as_slice(),
            rows[i].as_slice(),
        )?;
        rows.push(row)?;
    }
    Ok(rows)
}

/// The gate that is true where two are and a third isn't.
fn both_without(circuit: &mut Circuit, left: u64, right: u64, apart: u64) -> Result<u64, AllocError>
    requires left { left < length circuit.old.parts }
    requires right { right < length circuit.old.parts }
    requires apart { apart < length circuit.old.parts }
    ensures grown { Grown circuit.old circuit.new }
    ensures worth { IfOk result (λ g. Is circuit.new g (λ s.
        (value s circuit.old.parts left && value s circuit.old.parts right) && not (value s circuit.old.parts apart))) }
{
    let both = circuit.and(left, right)?;
    let level = circuit.not(apart)?;
    circuit.and(both, level)
}

impl RankTable {
    /// The gate of an item of the left sequence.
    fn left_gate(&self, i: usize) -> u64
        requires { i < length self.now.left }
        ensures { result ≡ slice_index_or self.now.left i 0 }
    {
        self.left[i].gate
    }

    /// The gate of an item of the right sequence.
    fn right_gate(&self, k: usize) -> u64
        requires { k < length self.now.right }
        ensures { result ≡ slice_index_or self.now.right k 0 }
    {
        self.right[k].gate
    }

    /// The gate that is true where the ranks differ, of two places behind the common front.
    fn cell(&self, i: usize, k: usize) -> u64
        requires behind { self.now.front ≤ min i k }
        requires row { i - self.now.front < length self.now.rows }
        requires cell { k - self.now.front < length (slice_index_or self.now.rows (i - self.now.front) []) }
        ensures { result ≡ rank_cell self.now i k }
    {
        self.rows[i - self.front][k - self.front]
    }

    /// How many items from the front are the same in both sequences.
    fn front(&self) -> usize
        ensures { result ≡ self.now.front }
    {
        let _rows = &self.rows;
        self.front
    }

    /// The gate that is true where both items are present and have the same rank among the present ones.
    ///
    /// # Errors
    ///
    /// There is no memory for it.
    pub fn matched(&self, circuit: &mut Circuit, i: usize, k: usize) -> Result<u64, AllocError>
        requires left { i < length self.now.left }
        requires right { k < length self.now.right }
        requires ranks { AreRanks circuit.old self.now }
        ensures grown { Grown circuit.old circuit.new }
        ensures worth { IfOk result (λ g. Is circuit.new g (λ s.
            is_matched (value s circuit.old.parts) self.now.left i self.now.right k)) }
    {
        if i.min(k) < self.front() {
            Ok(self.in_front(circuit, i, k))
        } else {
            self.matched_behind(circuit, i, k)
        }
    }

    /// The gate for two places behind the common front.
    fn matched_behind(&self, circuit: &mut Circuit, i: usize, k: usize) -> Result<u64, AllocError>
        requires left { i < length self.now.left }
        requires right { k < length self.now.right }
        requires ranks { AreRanks circuit.old self.now }
        requires behind { self.now.front ≤ min i k }
        ensures grown { Grown circuit.old circuit.new }
        ensures worth { IfOk result (λ g. Is circuit.new g (λ s.
            is_matched (value s circuit.old.parts) self.now.left i self.now.right k)) }
    {
        let left = self.left_gate(i);
        let right = self.right_gate(k);
        let apart = self.cell(i, k);
        both_without(circuit, left, right, apart)
    }

    /// The gate for two places, one of them in the common front: there only the same item matches.
    fn in_front(&self, circuit: &Circuit, i: usize, k: usize) -> u64
        requires left { i < length self.now.left }
        requires right { k < length self.now.right }
        requires ranks { AreRanks circuit.now self.now }
        requires front { min i k < self.now.front }
        ensures { Is circuit.now result (λ s. is_matched (value s circuit.now.parts) self.now.left i self.now.right k) }
    {
        if i == k {
            self.left_gate(i)
        } else {
            circuit.constant(false)
        }
    }
}
