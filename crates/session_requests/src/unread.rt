//! Why nothing was read.

ghost use Rattle.std.specs.Prelude.{◌≡◌};
ghost use Rattle.session_requests.specs.declared.bad_line.BadLine.TheVariants.{WrongField};
ghost use Rattle.session_requests.specs.declared.unread.Unread.TheVariants.{Bad};

use crate::bad_line::BadLine;
use crate::field::Field;
use std::alloc::AllocError;

/// Why no request was read.
#[derive(Debug, Drop)]
pub(crate) enum Unread {
    /// There is none.
    Bad(BadLine),
    /// There was no memory.
    NoMemory,
}

impl From<AllocError> for Unread {
    ghost use Rattle.session_requests.specs.declared.unread.Unread.TheVariants.{NoMemory};
    ghost use Rattle.std.specs.Prelude.{◌≡◌};

    ghost from_gives = { λ _ unread. unread ≡ NoMemory };

    fn from(_error: AllocError) -> Unread {
        Unread::NoMemory
    }
}

/// What stands in this field isn't right for it.
pub(crate) fn wrong(field: Field) -> Unread
    ensures { result ≡ Bad (WrongField field) }
{
    Unread::Bad(BadLine::WrongField(field))
}
