//! The parts of gates.

/// What a gate is: its kind and its operands, which are numbers of gates before it.
#[derive(Clone, Copy, Debug, PartialEq, Eq, PartialOrd, Ord)]
pub enum Part {
    /// False; gate 0 alone.
    Zero,
    /// True; gate 1 alone.
    One,
    /// True where the feature is selected.
    Feat(u8),
    /// True where the operand is false.
    Not(u64),
    /// True where both operands are; the smaller number comes first.
    And(u64, u64),
    /// True where an operand is; the smaller number comes first.
    Or(u64, u64),
}
