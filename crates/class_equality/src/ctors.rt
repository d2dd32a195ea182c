//! Parameters and constructors, by value.

use crate::same::{Same, same_items};
use cfj_model::{Constructor, Param, Sent};

impl Same for Param {
    fn same(&self, other: &Param) -> bool {
        self.slot == other.slot
            && self.colors == other.colors
            && self.of == other.of
            && self.name == other.name
    }
}

impl Same for Sent {
    fn same(&self, other: &Sent) -> bool {
        self.slot == other.slot && self.colors == other.colors && self.name == other.name
    }
}

impl Same for Constructor {
    fn same(&self, other: &Constructor) -> bool {
        same_items(self.params.slice(), other.params.slice())
            && same_items(self.sends.slice(), other.sends.slice())
            && same_items(self.assigns.slice(), other.assigns.slice())
    }
}
