//! The names of classes, with their places.

ghost use Rattle.std.specs.Prelude.{◌≡◌, true, IfOk, map, position};
ghost use Rattle.std.specs.Str.{bytes_eq};
ghost use Rattle.cfj_model.specs.ProductLines.{are_distinct};

use crate::class::Class;
use cfj_words::Name;
use indexmap::IndexSet;
use shared_list::SharedList;
use std::alloc::{AllocError, Global};
use std::marker::Model;

/// The names of some classes, in their order, with a look-up that doesn't go through them.
#[derive(Debug, Drop)]
pub(crate) struct ClassNames {
    names: IndexSet<Name>,
}

impl Model for ClassNames {
    ghost use Rattle.std.specs.Prelude.{List, ℕ};

    ghost Value = { List (List ℕ) };

    ghost view = { λ c. c.names.keys };
}

impl ClassNames {
    /// The names of these classes, no two of which have one name.
    pub(crate) fn of(alloc: Global, classes: &SharedList<Class>) -> Result<ClassNames, AllocError>
        requires { are_distinct (map (λ k. k.name) classes.now) ≡ true }
        ensures { IfOk result (λ names. names ≡ map (λ k. k.name) classes.now) }
    {
        let mut names = IndexSet::with_capacity(alloc, classes.len())?;
        'each: for place in 0..classes.len() {
            let name = classes.get(place).name.copy(alloc)?;
            names.insert(name)?;
        }
        Ok(ClassNames { names })
    }

    /// The place of the class of this name.
    pub(crate) fn place(&self, name: &Name) -> Option<usize>
        ensures { result ≡ position (bytes_eq name.now) self.now }
    {
        self.names.get_index_of(name)
    }
}
