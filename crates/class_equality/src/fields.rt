//! Fields, by value.

use crate::same::Same;
use cfj_model::Field;

impl Same for Field {
    fn same(&self, other: &Field) -> bool {
        self.alt == other.alt
            && self.colors == other.colors
            && self.of == other.of
            && self.name == other.name
    }
}
