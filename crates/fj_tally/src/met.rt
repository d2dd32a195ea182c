//! Names that were met, in the order in which they came.

ghost use Rattle.std.specs.Prelude.{◌≡◌, [], ◌∷◌, ◌++◌, if◌then◌else◌, not, IfOk, length};
ghost use Rattle.cfj_words.specs.Names.{is_among};

use indexmap::IndexSet;
use std::alloc::{AllocError, Global};
use std::marker::Model;

/// Names in the order in which they were met, each once, with a look-up that doesn't go through them.
#[derive(Drop)]
pub struct Met<'a> {
    names: IndexSet<&'a str>,
}

impl<'a> Model for Met<'a> {
    ghost use Rattle.std.specs.Prelude.{List, ℕ, map};

    ghost Value = { List (List ℕ) };

    ghost view = { λ m. map (λ n. n.now) m.names.keys };
}

impl<'a> Met<'a> {
    /// No name; no memory is taken.
    pub fn new(alloc: Global) -> Met<'a>
        ensures { result ≡ [] }
    {
        Met {
            names: IndexSet::new(alloc),
        }
    }

    /// How many there are.
    pub fn len(&self) -> usize
        ensures { result ≡ length self.now }
    {
        self.names.len()
    }

    /// Whether a name was met.
    pub fn has(&self, name: &str) -> bool
        ensures { result ≡ is_among self.now name.now }
    {
        self.names.contains(name)
    }

    /// Adds a name behind the others, where it wasn't met; whether it wasn't.
    ///
    /// # Errors
    ///
    /// There is no memory for it.
    pub fn add(&mut self, name: &'a str) -> Result<bool, AllocError>
        ensures fresh { IfOk result (λ fresh. fresh ≡ not (is_among self.old name.now)) }
        ensures added { IfOk result (λ fresh. self.new ≡ if fresh then self.old ++ name.now ∷ [] else self.old) }
    {
        Ok(self.names.insert(name)?)
    }

    /// Takes out all names; the room that they took stays for others.
    pub fn clear(&mut self)
        ensures { self.new ≡ [] }
    {
        if !self.names.is_empty() {
            self.names.clear();
        }
    }
}
