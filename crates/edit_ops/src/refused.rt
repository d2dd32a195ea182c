//! Why an edit is refused once its text is read.

use cfj_model::{LimitKind, Name, Site};
use std::alloc::AllocError;
use std::fmt;

/// Why an edit is refused once its text is read.
#[derive(Debug, Drop)]
pub enum EditRefused {
    /// The node can't have marks.
    NotOptional(Site),
    /// A mark's feature isn't declared, or isn't to have a `!` in format one.
    NoFeature(Name),
    /// The name is taken.
    Exists(Name),
    /// A mark of the node has a feature that the new model lacks, or a `!` that it doesn't allow.
    InUse(Site),
    /// The project would pass a limit.
    Limit(LimitKind),
    /// There is no memory.
    NoMemory,
}

impl From<AllocError> for EditRefused {
    ghost use Rattle.edit_ops.specs.declared.refused.EditRefused.TheVariants.{NoMemory};
    ghost use Rattle.std.specs.Prelude.{◌≡◌};

    ghost from_gives = { λ _ refused. refused ≡ NoMemory };

    fn from(_: AllocError) -> EditRefused {
        EditRefused::NoMemory
    }
}
