//! What a variant has where marks hold.

ghost use Rattle.std.specs.Prelude.{◌≡◌, [], ◌∷◌, ◌++◌, OnOk};

use cfj_model::Colors;
use std::alloc::AllocError;

/// Something of a class table, and the marks that all hold exactly where a variant has it.
#[derive(Clone, Copy, Debug)]
pub struct Marked<T> {
    /// Its own marks and those of all that it stands in.
    pub marks: Colors,
    /// What is there where they hold.
    pub item: T,
}

/// Adds something with its marks.
pub fn push_marked<T: Copy>(
    found: &mut Vec<Marked<T>>,
    marks: Colors,
    item: T,
) -> Result<(), AllocError>
    ensures { OnOk result (found.new.items ≡ found.old.items ++ record { marks = marks; item = item } ∷ []) }
{
    found.push(Marked { marks, item })?;
    Ok(())
}
