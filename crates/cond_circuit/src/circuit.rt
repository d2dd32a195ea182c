//! Circuits: gates over the features of a model, each made once.

ghost use Rattle.std.specs.Prelude.{◌≡◌, ℕ, ◌<◌, ◌≤◌, ◌^◌, [], ◌∷◌, length, IfOk, OnErr, IsTrue, Some, not, ◌&&◌, ◌||◌, slice_get, if◌then◌else◌};
ghost use Rattle.cfj_logic.specs.Formulas.{truth, is_over};
ghost use Rattle.cfj_logic.specs.Selections.{is_on};
ghost use Rattle.cond_circuit.specs.Folding as fold;
ghost use Rattle.cond_circuit.specs.Gates.{Stands, IsCircuit, Grown, Is, value};

use crate::folding::{Folded, fold_and, fold_not, fold_or};
use crate::index::{append, gate_of};
use crate::part::Part;
use cfj_logic::{Formula, Selection};
use std::alloc::{AllocError, Global};
use std::collections::BTreeMap;
use std::marker::Model;

/// Gates over the features of a model, each gate once.
///
/// Contracts see it as the number of features and the list of the gates' parts. After an `Err` of a call that adds gates, some of
/// the gates that it needed may have been added, and nothing else has changed.
#[derive(Drop)]
pub struct Circuit {
    features: u8,
    parts: Vec<Part>,
    index: BTreeMap<Part, u64>,
}

impl Model for Circuit {
    ghost use Rattle.cond_circuit.specs.Gates.{Gates};
    ghost use Rattle.cond_circuit.specs.Indexes.{IsIndexed};

    ghost Value = { Gates };

    ghost view = { λ c. record { features = c.features; parts = c.parts.items } };

    ghost invariant = { λ c. IsIndexed c.features c.parts.items c.index };
}

/// Whether the feature is selected.
fn selects(selection: &Selection, feature: u8) -> bool
    requires { feature < selection.now.features }
    ensures { result ≡ is_on selection.now feature }
{
    selection.has(feature)
}

impl Circuit {
    /// A circuit over so many features, with the two constants as its gates.
    ///
    /// # Errors
    ///
    /// There is no memory for it.
    pub fn new(alloc: Global, features: u8) -> Result<Circuit, AllocError>
        requires { features ≤ 128 }
        ensures { IfOk result (λ c. c ≡ record { features = features; parts = Part.Zero ∷ (Part.One ∷ []) }) }
    {
        let mut parts = Vec::new(alloc);
        let mut index = BTreeMap::new(alloc);
        append(&mut parts, &mut index, Part::Zero)?;
        append(&mut parts, &mut index, Part::One)?;
        Ok(Circuit {
            features,
            parts,
            index,
        })
    }

    /// The number of features.
    pub fn features(&self) -> u8
        ensures features { result ≡ self.now.features }
        ensures kept { IsCircuit self.now.features self.now.parts }
    {
        let _index = &self.index;
        self.features
    }

    /// The number of gates, which are numbered from 0.
    pub fn gates(&self) -> u64
        ensures gates { result ≡ length self.now.parts }
        ensures few { length self.now.parts < 2 ^ 62 }
    {
        self.parts.as_slice().len() as u64
    }

    /// The kind and the operands of a gate.
    pub fn part(&self, gate: u64) -> Part
        requires { gate < length self.now.parts }
        ensures part { slice_get self.now.parts gate ≡ Some result }
        ensures stands { Stands self.now.features gate result }
        ensures kept { IsCircuit self.now.features self.now.parts }
    {
        self.parts[gate as usize]
    }

    /// The gate of a constant.
    pub fn constant(&self, value: bool) -> u64
        ensures gate { result ≡ (if value then 1 else 0) }
        ensures worth { Is self.now result (λ s. value) }
    {
        let _features = self.features();
        if value { 1 } else { 0 }
    }

    /// The gate that an operation folds to. It is added where it isn't there.
    fn place(&mut self, folded: Folded) -> Result<u64, AllocError>
        requires { fold.IsPlaceable self.old folded }
        ensures kept { IsCircuit self.old.features self.old.parts }
        ensures placed { IfOk result (λ g. (self.new, g) ≡ fold.placed self.old folded) }
        ensures unchanged { OnErr result (self.new ≡ self.old) }
    {
        let _features = self.features();
        match folded {
            Folded::Gate(gate) => Ok(gate),
            Folded::New(part) => match gate_of(&self.index, &self.parts, part) {
                Some(gate) => Ok(gate),
                None => append(&mut self.parts, &mut self.index, part),
            },
        }
    }

    /// The gate of a feature.
    ///
    /// # Errors
    ///
    /// There is no memory for it.
    pub fn feat(&mut self, feature: u8) -> Result<u64, AllocError>
        requires { feature < self.old.features }
        ensures placed { IfOk result (λ g. (self.new, g) ≡ fold.feat_gate feature self.old) }
        ensures grown { Grown self.old self.new }
        ensures worth { IfOk result (λ g. Is self.new g (λ s. is_on s feature)) }
        ensures unchanged { OnErr result (self.new ≡ self.old) }
    {
        self.place(Folded::New(Part::Feat(feature)))
    }

    /// The gate that is true where this one is false.
    ///
    /// # Errors
    ///
    /// There is no memory for it.
    pub fn not(&mut self, gate: u64) -> Result<u64, AllocError>
        requires { gate < length self.old.parts }
        ensures placed { IfOk result (λ g. (self.new, g) ≡ fold.not_gate gate self.old) }
        ensures grown { Grown self.old self.new }
        ensures worth { IfOk result (λ g. Is self.new g (λ s. not (value s self.old.parts gate))) }
        ensures unchanged { OnErr result (self.new ≡ self.old) }
    {
        let part = self.part(gate);
        self.place(fold_not(part, gate))
    }

    /// The gate that is true where both are.
    ///
    /// # Errors
    ///
    /// There is no memory for it.
    pub fn and(&mut self, left: u64, right: u64) -> Result<u64, AllocError>
        requires left { left < length self.old.parts }
        requires right { right < length self.old.parts }
        ensures placed { IfOk result (λ g. (self.new, g) ≡ fold.and_gate left right self.old) }
        ensures grown { Grown self.old self.new }
        ensures worth { IfOk result (λ g. Is self.new g (λ s. value s self.old.parts left && value s self.old.parts right)) }
        ensures unchanged { OnErr result (self.new ≡ self.old) }
    {
        let _features = self.features();
        self.place(fold_and(left, right))
    }

    /// The gate that is true where one of them is.
    ///
    /// # Errors
    ///
    /// There is no memory for it.
    pub fn or(&mut self, left: u64, right: u64) -> Result<u64, AllocError>
        requires left { left < length self.old.parts }
        requires right { right < length self.old.parts }
        ensures placed { IfOk result (λ g. (self.new, g) ≡ fold.or_gate left right self.old) }
        ensures grown { Grown self.old self.new }
        ensures worth { IfOk result (λ g. Is self.new g (λ s. value s self.old.parts left || value s self.old.parts right)) }
        ensures unchanged { OnErr result (self.new ≡ self.old) }
    {
        let _features = self.features();
        self.place(fold_or(left, right))
    }

    /// The gate that is true where the first is false or the second is true.
    fn implies(&mut self, left: u64, right: u64) -> Result<u64, AllocError>
        requires left { left < length self.old.parts }
        requires right { right < length self.old.parts }
        ensures placed { IfOk result (λ g. (self.new, g) ≡ fold.implies_gate left right self.old) }
        ensures grown { Grown self.old self.new }
        ensures worth { IfOk result (λ g. Is self.new g (λ s. not (value s self.old.parts left) || value s self.old.parts right)) }
    {
        let fails = self.not(left)?;
        self.or(fails, right)
    }

    /// The gate that is true where both have one value.
    fn iff(&mut self, left: u64, right: u64) -> Result<u64, AllocError>
        requires left { left < length self.old.parts }
        requires right { right < length self.old.parts }
        ensures placed { IfOk result (λ g. (self.new, g) ≡ fold.iff_gate left right self.old) }
        ensures grown { Grown self.old self.new }
        ensures worth { IfOk result (λ g. Is self.new g (λ s. if value s self.old.parts left then value s self.old.parts right else not (value s self.old.parts right))) }
    {
        let both = self.and(left, right)?;
        let not_left = self.not(left)?;
        let not_right = self.not(right)?;
        let neither = self.and(not_left, not_right)?;
        self.or(both, neither)
    }

    /// The gate that is true where the formula is.
    ///
    /// # Errors
    ///
    /// There is no memory for a gate that it needs.
    pub fn formula(&mut self, formula: &Formula) -> Result<u64, AllocError>
        requires { IsTrue (is_over self.old.features formula.now) }
        ensures placed { IfOk result (λ g. (self.new, g) ≡ fold.formula_gate formula.now self.old) }
        ensures grown { Grown self.old self.new }
        ensures worth { IfOk result (λ g. Is self.new g (λ s. truth s formula.now)) }
    {
        let features = self.features();
        self.formula_over(features, formula)
    }

    /// The gate of a formula over these features, which are the circuit's.
    fn formula_over(&mut self, features: u8, formula: &Formula) -> Result<u64, AllocError>
        requires features { features ≡ self.old.features }
        requires over { IsTrue (is_over features formula.now) }
        ensures features { self.new.features ≡ self.old.features }
        ensures placed { IfOk result (λ g. (self.new, g) ≡ fold.formula_gate formula.now self.old) }
        ensures grown { Grown self.old self.new }
        ensures worth { IfOk result (λ g. Is self.new g (λ s. truth s formula.now)) }
    {
        match formula {
            Formula::True => Ok(self.constant(true)),
            Formula::False => Ok(self.constant(false)),
            Formula::Feat(feature) => self.feat(*feature),
            Formula::Not(part) => {
                let gate = self.formula_over(features, part.get())?;
                self.not(gate)
            }
            Formula::And(left, right) => {
                let left = self.formula_over(features, left.get())?;
                let right = self.formula_over(features, right.get())?;
                self.and(left, right)
            }
            Formula::Or(left, right) => {
                let left = self.formula_over(features, left.get())?;
                let right = self.formula_over(features, right.get())?;
                self.or(left, right)
            }
            Formula::Implies(left, right) => {
                let left = self.formula_over(features, left.get())?;
                let right = self.formula_over(features, right.get())?;
                self.implies(left, right)
            }
            Formula::Iff(left, right) => {
                let left = self.formula_over(features, left.get())?;
                let right = self.formula_over(features, right.get())?;
                self.iff(left, right)
            }
        }
    }

    /// Whether the gate is true under the selection. No memory is taken.
    ///
    /// It walks the operands as a tree: a gate that others share is looked at once for each way that leads to it. So the time is that
    /// of the formula written out, which may be exponential in the number of gates.
    #[tactic(auto, using(crate::proofs::ValueLemmas::value_zero, crate::proofs::ValueLemmas::value_one, crate::proofs::ValueLemmas::value_feat, crate::proofs::ValueLemmas::value_not, crate::proofs::ValueLemmas::value_and, crate::proofs::ValueLemmas::value_or))]
    pub fn eval(&self, gate: u64, selection: &Selection) -> bool
        requires gate { gate < length self.now.parts }
        requires selection { selection.now.features ≡ self.now.features }
        ensures { result ≡ value selection.now self.now.parts gate }
    {
        match self.part(gate) {
            Part::Zero => false,
            Part::One => true,
            Part::Feat(feature) => selects(selection, feature),
            Part::Not(operand) => !self.eval(operand, selection),
            Part::And(left, right) => self.eval(left, selection) && self.eval(right, selection),
            Part::Or(left, right) => self.eval(left, selection) || self.eval(right, selection),
        }
    }
}
