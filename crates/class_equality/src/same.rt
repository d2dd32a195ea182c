//! What is compared by value.

ghost use Rattle.std.specs.Prelude.{◌≡◌, ◌↔◌, IsTrue};

use cfj_words::Name;

/// What is compared by value.
pub trait Same {
    /// Whether both are the same value.
    fn same(&self, other: &Self) -> bool
        ensures { IsTrue result ↔ (self.now ≡ other.now) };
}

/// Whether both lists have the same items, in order.
pub fn same_items<T: Same>(some: &[T], others: &[T]) -> bool
    ensures { IsTrue result ↔ (some.now ≡ others.now) }
{
    if some.len() != others.len() {
        return false;
    }
    'each: for place in 0..some.len() {
        if !some[place].same(&others[place]) {
            return false;
        }
    }
    true
}

impl Same for Name {
    fn same(&self, other: &Name) -> bool {
        self == other
    }
}
