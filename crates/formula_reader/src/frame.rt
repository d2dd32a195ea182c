//! What is open to the left of the place that is read.

ghost use Rattle.std.specs.Prelude.{◌≡◌, IfOk, nat_le};
ghost use Rattle.formula_reader.specs.Machine as spec;

use cfj_model::{Boxed, Formula};
use std::alloc::{AllocError, Global};

/// What is open to the left of the place that is read, with the formula that stands there.
#[derive(Drop)]
pub enum Frame {
    /// The left side of `&`.
    InAnd(Formula),
    /// The left side of `|`.
    InOr(Formula),
    /// The left side of `->`.
    InImplies(Formula),
    /// The left side of `<->`.
    InIff(Formula),
    /// `!`.
    InNot,
    /// The bracket that opens.
    InBracket,
}

/// The level of a `<->`, the connective that holds least tightly.
pub const IFF_LEVEL: u8 = 1;

/// The level of an `->`.
pub const IMPLIES_LEVEL: u8 = 2;

/// The level of an `|`.
pub const OR_LEVEL: u8 = 3;

/// The level of an `&`.
pub const AND_LEVEL: u8 = 4;

/// Two values in boxes of their own; over any type, so that what is left of them drops in one step on each way out.
fn both<T: Drop>(alloc: Global, left: T, right: T) -> Result<(Boxed<T>, Boxed<T>), AllocError>
    ensures left { IfOk result (λ boxes. boxes.0 ≡ left) }
    ensures right { IfOk result (λ boxes. boxes.1 ≡ right) }
{
    let left = Boxed::new(alloc, left)?;
    Ok((left, Boxed::new(alloc, right)?))
}

impl Frame {
    /// How tightly it holds what is read behind it; nothing but its own end closes a bracket.
    fn level(&self) -> u8
        ensures { result ≡ spec.level self.now }
    {
        match self {
            Frame::InBracket => 0,
            Frame::InIff(_) => IFF_LEVEL,
            Frame::InImplies(_) => IMPLIES_LEVEL,
            Frame::InOr(_) => OR_LEVEL,
            Frame::InAnd(_) => AND_LEVEL,
            Frame::InNot => 5,
        }
    }

    /// Whether it holds what is read behind it at least so tightly.
    pub fn holds(&self, least: u8) -> bool
        ensures { result ≡ nat_le least (spec.level self.now) }
    {
        least <= self.level()
    }

    /// Whether it counts for the nesting.
    pub fn nests(&self) -> bool
        ensures { result ≡ spec.nests self.now }
    {
        matches!(self, Frame::InBracket | Frame::InNot | Frame::InImplies(_))
    }

    /// The formula that closes it, with what was read behind it.
    pub fn applied(self, alloc: Global, right: Formula) -> Result<Formula, AllocError>
        ensures { IfOk result (λ whole. whole ≡ spec.applied self right) }
    {
        match self {
            Frame::InBracket => Ok(right),
            Frame::InIff(left) => {
                let (left, right) = both(alloc, left, right)?;
                Ok(Formula::Iff(left, right))
            }
            Frame::InImplies(left) => {
                let (left, right) = both(alloc, left, right)?;
                Ok(Formula::Implies(left, right))
            }
            Frame::InOr(left) => {
                let (left, right) = both(alloc, left, right)?;
                Ok(Formula::Or(left, right))
            }
            Frame::InAnd(left) => {
                let (left, right) = both(alloc, left, right)?;
                Ok(Formula::And(left, right))
            }
            Frame::InNot => Ok(Formula::Not(Boxed::new(alloc, right)?)),
        }
    }
}
