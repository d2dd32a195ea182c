//! Formulas over features.

ghost use Rattle.std.specs.Prelude.{◌≡◌, IfOk};

use cfj_words::{Boxed, Copied, both};
use std::alloc::{AllocError, Global};

/// A formula over features, which are named by their numbers.
#[derive(Debug, Drop)]
pub enum Formula {
    /// True.
    True,
    /// False.
    False,
    /// True where the feature is selected.
    Feat(u8),
    /// True where the part is false.
    Not(Boxed<Formula>),
    /// True where both parts are.
    And(Boxed<Formula>, Boxed<Formula>),
    /// True where a part is.
    Or(Boxed<Formula>, Boxed<Formula>),
    /// True where the first part is false or the second is true.
    Implies(Boxed<Formula>, Boxed<Formula>),
    /// True where both parts have one value.
    Iff(Boxed<Formula>, Boxed<Formula>),
}

impl Formula {
    /// An equal formula in memory of its own.
    ///
    /// # Errors
    ///
    /// There is no memory for it.
    #[cycle(copy)]
    pub fn copy(&self, alloc: Global) -> Result<Formula, AllocError>
        ensures { IfOk result (λ f. f ≡ self.now) }
    {
        match self {
            Formula::True => Ok(Formula::True),
            Formula::False => Ok(Formula::False),
            Formula::Feat(feature) => Ok(Formula::Feat(*feature)),
            Formula::Not(part) => Ok(Formula::Not(part_copy(alloc, part)?)),
            Formula::And(left, right) => {
                let (left, right) = both(part_copy(alloc, left), part_copy(alloc, right))?;
                Ok(Formula::And(left, right))
            }
            Formula::Or(left, right) => {
                let (left, right) = both(part_copy(alloc, left), part_copy(alloc, right))?;
                Ok(Formula::Or(left, right))
            }
            Formula::Implies(left, right) => {
                let (left, right) = both(part_copy(alloc, left), part_copy(alloc, right))?;
                Ok(Formula::Implies(left, right))
            }
            Formula::Iff(left, right) => {
                let (left, right) = both(part_copy(alloc, left), part_copy(alloc, right))?;
                Ok(Formula::Iff(left, right))
            }
        }
    }
}

#[cycle(copy)]
fn part_copy(alloc: Global, part: &Boxed<Formula>) -> Result<Boxed<Formula>, AllocError>
    ensures { IfOk result (λ f. f ≡ part.now) }
{
    Boxed::new(alloc, part.get().copy(alloc)?)
}

impl Copied for Formula {
    fn copied(&self, alloc: Global) -> Result<Formula, AllocError> {
        self.copy(alloc)
    }
}
