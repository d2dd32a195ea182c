//! What an operation on gates folds to.

ghost use Rattle.std.specs.Prelude.{◌≡◌};
ghost use Rattle.cond_circuit.specs.Folding as spec;

use crate::part::Part;

/// What an operation folds to: a gate that is there, or a part to look for.
#[derive(Clone, Copy)]
pub enum Folded {
    /// This gate.
    Gate(u64),
    /// The gate with this part.
    New(Part),
}

/// `and` of two gates.
pub fn fold_and(left: u64, right: u64) -> Folded
    ensures { result ≡ spec.fold_and left right }
{
    if left == right {
        Folded::Gate(left)
    } else if left == 0 || right == 0 {
        Folded::Gate(0)
    } else if left == 1 {
        Folded::Gate(right)
    } else if right == 1 {
        Folded::Gate(left)
    } else {
        Folded::New(Part::And(left.min(right), left.max(right)))
    }
}

/// `or` of two gates.
pub fn fold_or(left: u64, right: u64) -> Folded
    ensures { result ≡ spec.fold_or left right }
{
    if left == right {
        Folded::Gate(left)
    } else if left == 1 || right == 1 {
        Folded::Gate(1)
    } else if left == 0 {
        Folded::Gate(right)
    } else if right == 0 {
        Folded::Gate(left)
    } else {
        Folded::New(Part::Or(left.min(right), left.max(right)))
    }
}

/// `not` of a gate with this part.
pub fn fold_not(part: Part, gate: u64) -> Folded
    ensures { result ≡ spec.fold_not part gate }
{
    match part {
        Part::Zero => Folded::Gate(1),
        Part::One => Folded::Gate(0),
        Part::Not(operand) => Folded::Gate(operand),
        Part::Feat(_) | Part::And(_, _) | Part::Or(_, _) => Folded::New(Part::Not(gate)),
    }
}
