//! Members of a class.

ghost use Rattle.std.specs.Prelude.{◌≡◌, IfOk};

use crate::class::{Field, Method};
use std::alloc::{AllocError, Global};

/// A field or a method by itself.
#[derive(Debug, Drop)]
pub enum Member {
    /// A field.
    Field(Field),
    /// A method.
    Method(Method),
}

impl Member {
    /// An equal member in memory of its own.
    ///
    /// # Errors
    ///
    /// There is no memory for it.
    pub fn copy(&self, alloc: Global) -> Result<Member, AllocError>
        ensures { IfOk result (λ member. member ≡ self.now) }
    {
        Ok(match self {
            Member::Field(field) => Member::Field(field.copy(alloc)?),
            Member::Method(method) => Member::Method(method.copy(alloc)?),
        })
    }
}
