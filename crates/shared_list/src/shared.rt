//! Values with several owners.

ghost use Rattle.std.specs.Prelude.{◌≡◌, IfOk};

use std::alloc::{AllocError, Global};
use std::marker::Model;
use std::sync::Arc;

/// An `Arc` that contracts see as what it holds, so that a list of them is a list of items there.
#[derive(Debug, Drop)]
pub struct Shared<T> {
    inner: Arc<T>,
}

impl<T> Model for Shared<T> {
    ghost Value = { T };

    ghost coded = { T.code };

    ghost view = { λ s. s.inner.value };
}

impl<T> Shared<T> {
    /// What it holds.
    pub fn get(&self) -> &T
        ensures { result.now ≡ self.now }
    {
        &self.inner
    }

    /// One more owner of the same value.
    ///
    /// # Errors
    ///
    /// The value has more owners than can be counted.
    pub fn share(&self) -> Result<Shared<T>, AllocError>
        ensures { IfOk result (λ shared. shared ≡ self.now) }
    {
        Ok(Shared {
            inner: Arc::try_clone(&self.inner)?,
        })
    }
}

impl<T: Drop> Shared<T> {
    /// The first owner of this value.
    ///
    /// # Errors
    ///
    /// There is no memory for it.
    pub fn new(alloc: Global, value: T) -> Result<Shared<T>, AllocError>
        ensures { IfOk result (λ shared. shared ≡ value) }
    {
        Ok(Shared {
            inner: Arc::new(alloc, value)?,
        })
    }
}

/// Further owners of these values, in order.
///
/// # Errors
///
/// There is no memory for the list, or a value has more owners than can be counted.
pub fn shared_items<T: Drop>(
    alloc: Global,
    items: &[Shared<T>],
) -> Result<Vec<Shared<T>>, AllocError>
    ensures { IfOk result (λ copies. copies.items ≡ items.now) }
{
    let mut copies = Vec::new(alloc);
    'each: for item in items {
        copies.push(item.share()?)?;
    }
    Ok(copies)
}
