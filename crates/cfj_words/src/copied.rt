//! Copies in memory of their own.

ghost use Rattle.std.specs.Prelude.{◌≡◌, IfOk, Ok};

use crate::items::Items;
use std::alloc::{AllocError, Global};

/// What has a copy in memory of its own.
pub trait Copied {
    /// An equal value in memory of its own.
    fn copied(&self, alloc: Global) -> Result<Self, AllocError>
        ensures { IfOk result (λ copy. copy ≡ self.now) };
}

/// Equal items in memory of their own.
pub fn copied_items<T: Copied + Drop>(
    alloc: Global,
    items: &Items<T>,
) -> Result<Items<T>, AllocError>
    ensures { IfOk result (λ copy. copy ≡ items.now) }
{
    let items = items.slice();
    let mut copies = Vec::new(alloc);
    'each: for item in items {
        copies.push(item.copied(alloc)?)?;
    }
    Ok(Items::of(copies))
}

/// Both values, where both copies were made.
///
/// An `?` on the second while the first is owned would drop the first in place, whatever its type holds; here it is dropped as a whole.
pub fn both<A: Drop, B: Drop>(
    left: Result<A, AllocError>,
    right: Result<B, AllocError>,
) -> Result<(A, B), AllocError>
    ensures { IfOk result (λ pair. (left ≡ Ok pair.0) × (right ≡ Ok pair.1)) }
{
    Ok((left?, right?))
}
