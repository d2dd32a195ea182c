//! Lists whose copies share their items.

ghost use Rattle.std.specs.Prelude.{◌≡◌, ◌+◌, ◌/◌, ◌==◌, true, ◌<◌, ◌≤◌, [], ◌∷◌, ◌++◌, IfOk, OnOk, OnErr, Some, drop, length, slice_get, slice_range, slice_set, take};
ghost use Rattle.shared_list.specs.Stretches.{are_full, joined};

use crate::chunk::{CHUNK, Chunk, replaced};
use crate::shared::{Shared, shared_items};
use std::alloc::{AllocError, Global};
use std::marker::Model;

/// A list whose copies share their items, each by an owner of its own.
///
/// The items lie in stretches of 32, and the last ones, fewer than 32, apart. So a copy takes a pointer for each stretch and for each
/// of the last ones, and an item is found in one step.
#[derive(Debug, Drop)]
pub struct SharedList<T> {
    full: Vec<Shared<Chunk<T>>>,
    last: Vec<Shared<T>>,
    count: usize,
}

impl<T> Model for SharedList<T> {
    ghost use Rattle.std.specs.Coded.{coded_list};
    ghost use Rattle.std.specs.Prelude.{◌≡◌, ◌<◌, ◌++◌, List, length, true};
    ghost use Rattle.shared_list.specs.Stretches.{are_full, joined};

    ghost Value = { List T };

    ghost coded = { coded_list T.code };

    ghost view = { λ l. joined l.full.items ++ l.last.items };

    ghost invariant = { λ l. (are_full l.full.items ≡ true)
        × (length l.last.items < 32)
        × (l.count ≡ length (joined l.full.items ++ l.last.items)) };
}

impl<T> SharedList<T> {
    /// No items.
    pub fn new(alloc: Global) -> SharedList<T>
        ensures { result ≡ [] }
    {
        SharedList {
            full: Vec::new(alloc),
            last: Vec::new(alloc),
            count: 0,
        }
    }

    /// The number of its items.
    pub fn len(&self) -> usize
        ensures { result ≡ length self.now }
    {
        self.count
    }

    /// Whether it has no item.
    pub fn is_empty(&self) -> bool
        ensures { result ≡ (length self.now == 0) }
    {
        self.count == 0
    }

    /// The item at a place, from 0.
    pub fn get(&self, place: usize) -> &T
        requires { place < length self.now }
        ensures { slice_get self.now place ≡ Some result.now }
    {
        self.owner(place).get()
    }

    /// An owner of the item at a place, from 0, which may be shared with what outlives the list.
    pub fn owner(&self, place: usize) -> &Shared<T>
        requires { place < length self.now }
        ensures { slice_get self.now place ≡ Some result.now }
    {
        let stretch = place / CHUNK;
        if stretch < self.full.len() {
            &self.full[stretch].get().slice()[place % CHUNK]
        } else {
            &self.last[place % CHUNK]
        }
    }
}

impl<T: Drop> SharedList<T> {
    /// A list of these items.
    ///
    /// # Errors
    ///
    /// There is no memory for it.
    pub fn of(alloc: Global, items: Vec<T>) -> Result<SharedList<T>, AllocError>
        ensures { IfOk result (λ list. list ≡ items.items) }
    {
        let mut list = SharedList::new(alloc);
        'each: for item in items {
            list.push(alloc, item)?;
        }
        Ok(list)
    }

    /// One more item at the end.
    ///
    /// # Errors
    ///
    /// There is no memory for it, and the list is as it was.
    pub fn push(&mut self, alloc: Global, item: T) -> Result<(), AllocError>
        ensures pushed { OnOk result (self.new ≡ self.old ++ item ∷ []) }
        ensures kept { OnErr result (self.new ≡ self.old) }
    {
        let item = Shared::new(alloc, item)?;
        self.push_owner(alloc, item)
    }

    fn push_owner(&mut self, alloc: Global, item: Shared<T>) -> Result<(), AllocError>
        ensures pushed { OnOk result (self.new ≡ self.old ++ item ∷ []) }
        ensures kept { OnErr result (self.new ≡ self.old) }
    {
        let Some(count) = self.count.checked_add(1) else {
            return Err(AllocError);
        };
        if self.last.len() + 1 < CHUNK {
            self.last.push(item)?;
            self.count = count;
            return Ok(());
        }
        // The list changes only once all memory is there.
        let mut items = shared_items(alloc, &self.last)?;
        items.push(item)?;
        self.full.push(Shared::new(alloc, Chunk::of(items))?)?;
        self.last.clear();
        self.count = count;
        Ok(())
    }

    /// The same items, shared.
    ///
    /// # Errors
    ///
    /// There is no memory for its pointers.
    pub fn copy(&self, alloc: Global) -> Result<SharedList<T>, AllocError>
        ensures { IfOk result (λ list. list ≡ self.now) }
    {
        Ok(SharedList {
            full: shared_items(alloc, &self.full)?,
            last: shared_items(alloc, &self.last)?,
            count: self.count,
        })
    }

    /// The list with one more item at the end.
    ///
    /// # Errors
    ///
    /// There is no memory for it.
    pub fn pushed(&self, alloc: Global, item: T) -> Result<SharedList<T>, AllocError>
        ensures { IfOk result (λ list. list ≡ self.now ++ item ∷ []) }
    {
        let mut list = self.copy(alloc)?;
        list.push(alloc, item)?;
        Ok(list)
    }

    /// The list with this item at a place, in place of the one there.
    ///
    /// # Errors
    ///
    /// There is no memory for it.
    pub fn with(&self, alloc: Global, place: usize, item: T) -> Result<SharedList<T>, AllocError>
        requires { place < length self.now }
        ensures { IfOk result (λ list. list ≡ slice_set self.now place item) }
    {
        let item = Shared::new(alloc, item)?;
        if place / CHUNK < self.full.len() {
            Ok(SharedList {
                full: with_item(alloc, &self.full, place, item)?,
                last: shared_items(alloc, &self.last)?,
                count: self.count,
            })
        } else {
            Ok(SharedList {
                full: shared_items(alloc, &self.full)?,
                last: replaced(alloc, &self.last, place % CHUNK, item)?,
                count: self.count,
            })
        }
    }

    // The items of another list from a place on, up to another place.
    fn push_range(
        &mut self,
        alloc: Global,
        other: &SharedList<T>,
        from: usize,
        to: usize,
    ) -> Result<(), AllocError>
        requires ordered { from ≤ to }
        requires within { to ≤ length other.now }
        ensures { OnOk result (self.new ≡ self.old ++ slice_range other.now from to) }
    {
        'each: for place in from..to {
            self.push_owner(alloc, other.owner(place).share()?)?;
        }
        Ok(())
    }

    /// The list without the item at a place. Each call goes through the pointers.
    ///
    /// # Errors
    ///
    /// There is no memory for it.
    pub fn without(&self, alloc: Global, place: usize) -> Result<SharedList<T>, AllocError>
        requires { place < length self.now }
        ensures { IfOk result (λ list. list ≡ take place self.now ++ drop (place + 1) self.now) }
    {
        let count = self.count;
        let mut list = SharedList::new(alloc);
        list.push_range(alloc, self, 0, place)?;
        list.push_range(alloc, self, place + 1, count)?;
        Ok(list)
    }
}

// Full stretches with this item at a place, in place of the one there.
fn with_item<T: Drop>(
    alloc: Global,
    full: &[Shared<Chunk<T>>],
    place: usize,
    item: Shared<T>,
) -> Result<Vec<Shared<Chunk<T>>>, AllocError>
    requires within { place / 32 < length full.now }
    requires full { are_full full.now ≡ true }
    ensures items { IfOk result (λ changed. joined changed.items ≡ slice_set (joined full.now) place item) }
    ensures full { IfOk result (λ changed. are_full changed.items ≡ true) }
{
    let stretch = place / CHUNK;
    let changed = replaced(alloc, full[stretch].get().slice(), place % CHUNK, item)?;
    let changed = Shared::new(alloc, Chunk::of(changed))?;
    replaced(alloc, full, stretch, changed)
}
