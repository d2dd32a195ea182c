//! Methods, by value.

use crate::same::{Same, same_items};
use cfj_model::Method;

impl Same for Method {
    fn same(&self, other: &Method) -> bool {
        self.alt == other.alt
            && self.colors == other.colors
            && self.result == other.result
            && self.name == other.name
            && same_items(self.params.slice(), other.params.slice())
            && self.body.same(&other.body)
    }
}
