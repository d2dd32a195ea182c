//! Classes, by value.

use crate::same::{Same, same_items};
use cfj_model::Class;

impl Same for Class {
    fn same(&self, other: &Class) -> bool {
        self.name == other.name
            && self.colors == other.colors
            && self.parent == other.parent
            && same_items(self.fields.slice(), other.fields.slice())
            && self.ctor.same(&other.ctor)
            && same_items(self.methods.slice(), other.methods.slice())
    }
}
