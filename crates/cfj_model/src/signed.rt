//! Marks by name.

ghost use Rattle.std.specs.Prelude.{◌≡◌, IfOk};

use cfj_words::{Copied, Name};
use std::alloc::{AllocError, Global};

/// A mark as a text has it: `@name`, or `@!name`.
#[derive(Debug, Drop)]
pub struct Signed {
    /// The feature isn't wanted: the mark has a `!`.
    pub off: bool,
    /// The feature's name.
    pub name: Name,
}

impl Signed {
    /// An equal mark in memory of its own.
    ///
    /// # Errors
    ///
    /// There is no memory for it.
    pub fn copy(&self, alloc: Global) -> Result<Signed, AllocError>
        ensures { IfOk result (λ mark. mark ≡ self.now) }
    {
        Ok(Signed {
            off: self.off,
            name: self.name.copy(alloc)?,
        })
    }
}

impl Copied for Signed {
    fn copied(&self, alloc: Global) -> Result<Signed, AllocError> {
        self.copy(alloc)
    }
}
