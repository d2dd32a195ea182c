//! The features of a project, with their numbers.

ghost use Rattle.std.specs.Prelude.{◌≡◌, ◌<◌, ◌≤◌, [], ◌∷◌, ◌++◌, true, IfSome, OnOk, Some, length, position};
ghost use Rattle.std.specs.Str.{bytes_eq};
ghost use Rattle.cfj_words.specs.Names.{is_name};
ghost use Rattle.cfj_model.specs.Marks.{marked, marked_at};
ghost use Rattle.fj_symbols.specs.Places.{ArePlaced};

use crate::names::name_of;
use cfj_model::{Colors, Name};
use indexmap::IndexMap;
use std::alloc::{AllocError, Global};
use std::marker::Model;

/// The features of a feature line, in order, with a look-up of a feature's number that doesn't go through them.
///
/// A name that stands twice keeps its first number.
#[derive(Drop)]
pub struct Features<'a> {
    names: Vec<Name>,
    places: IndexMap<&'a str, usize>,
    ghost placed: { ArePlaced places.entries names.items },
}

impl<'a> Model for Features<'a> {
    ghost use Rattle.std.specs.Prelude.{List, ℕ};

    ghost Value = { List (List ℕ) };

    ghost view = { λ f. f.names.items };
}

impl<'a> Features<'a> {
    /// No feature; no memory is taken.
    pub fn new(alloc: Global) -> Features<'a>
        ensures { result ≡ [] }
    {
        Features {
            names: Vec::new(alloc),
            places: IndexMap::new(alloc),
        }
    }

    /// The number of a feature: its place.
    pub fn place(&self, name: &str) -> Option<usize>
        ensures place { result ≡ position (λ f. bytes_eq f name.now) self.now }
        ensures within { IfSome result (λ place. place < length self.now) }
    {
        self.places.get(name).copied()
    }

    /// The colours with one more mark; of marks of one feature the first counts, and a name that isn't a feature's marks nothing.
    pub fn marked(&self, colors: Colors, name: &str, off: bool) -> Colors
        requires { length self.now ≤ 128 }
        ensures { result ≡ marked self.now colors (record { off = off; name = name.now }) }
    {
        match self.place(name) {
            Some(feature) => with_new(colors, feature as u8, off),
            None => colors,
        }
    }

    /// One more feature.
    pub fn add(&mut self, alloc: Global, name: &'a str) -> Result<(), AllocError>
        requires { is_name name.now ≡ true }
        ensures { OnOk result (self.new ≡ self.old ++ name.now ∷ []) }
    {
        let text = name_of(alloc, name)?;
        let place = self.names.len();
        self.names.push(text)?;
        if self.places.get(name).is_some() {
            return Ok(());
        }
        match self.places.insert(name, place) {
            Ok(_) => Ok(()),
            Err(failed) => {
                // No name stands there without its place.
                self.names.pop();
                Err(failed.into())
            }
        }
    }

    /// The names, in order.
    pub fn into_names(self) -> Vec<Name>
        ensures { result.items ≡ self.entry }
    {
        let Features { names, places: _ } = self;
        names
    }
}

/// The colours with a mark of this feature, where it isn't marked yet.
fn with_new(colors: Colors, feature: u8, off: bool) -> Colors
    requires { feature < 128 }
    ensures { result ≡ marked_at (Some feature) off colors }
{
    if colors.is_marked(feature) {
        colors
    } else {
        colors.with(feature, off)
    }
}
