//! Stretches of a list that several lists share.

ghost use Rattle.std.specs.Prelude.{◌≡◌, ◌<◌, IfOk, length, slice_set};

use crate::shared::{Shared, shared_items};
use std::alloc::{AllocError, Global};
use std::marker::Model;

/// The number of items in a stretch.
pub const CHUNK: usize = 32;

/// Some items of a list.
#[derive(Debug, Drop)]
pub struct Chunk<T> {
    items: Vec<Shared<T>>,
}

impl<T> Model for Chunk<T> {
    ghost use Rattle.std.specs.Coded.{coded_list};
    ghost use Rattle.std.specs.Prelude.{List};

    ghost Value = { List T };

    ghost coded = { coded_list T.code };

    ghost view = { λ c. c.items.items };
}

impl<T> Chunk<T> {
    /// These items.
    pub fn of(items: Vec<Shared<T>>) -> Chunk<T>
        ensures { result ≡ items.items }
    {
        Chunk { items }
    }

    /// The items, in order.
    pub fn slice(&self) -> &[Shared<T>]
        ensures { result.now ≡ self.now }
    {
        self.items.as_slice()
    }
}

/// Further owners of these values, but for the one at a place, where this one stands.
pub fn replaced<T: Drop>(
    alloc: Global,
    items: &[Shared<T>],
    place: usize,
    item: Shared<T>,
) -> Result<Vec<Shared<T>>, AllocError>
    requires { place < length items.now }
    ensures { IfOk result (λ copies. copies.items ≡ slice_set items.now place item) }
{
    let mut copies = shared_items(alloc, items)?;
    copies[place] = item;
    Ok(copies)
}
