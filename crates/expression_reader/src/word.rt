//! Identifiers whose roles wait.

ghost use Rattle.std.specs.Prelude.{◌≡◌, true, IfOk, IsTrue};
ghost use Rattle.cfj_words.specs.Names.{is_identifier};
ghost use Rattle.expression_reader.specs.Views.{is_short};

use cfj_model::Name;
use fj_symbols::name_of;
use std::alloc::{AllocError, Global};
use std::marker::Model;

/// An identifier of any length, which waits for its role.
///
/// Contracts see it as its text.
#[derive(Drop)]
pub struct Word {
    text: String,
}

impl Model for Word {
    ghost use Rattle.std.specs.Prelude.{◌≡◌, List, ℕ, true, string_bytes};
    ghost use Rattle.cfj_words.specs.Names.{is_identifier};

    ghost Value = { List ℕ };

    ghost view = { λ w. string_bytes w.text };

    ghost invariant = { λ w. is_identifier (string_bytes w.text) ≡ true };
}

impl Word {
    /// The word with this text.
    ///
    /// # Errors
    ///
    /// There is no memory for it.
    pub fn of(alloc: Global, text: &str) -> Result<Word, AllocError>
        requires { is_identifier text.now ≡ true }
        ensures { IfOk result (λ word. word ≡ text.now) }
    {
        let text = String::from_str(alloc, text)?;
        Ok(Word { text })
    }

    /// Its text.
    pub fn text(&self) -> &str
        ensures value { result.now ≡ self.now }
        ensures identifier { IsTrue (is_identifier self.now) }
    {
        self.text.as_str()
    }

    /// The name with its text.
    ///
    /// # Errors
    ///
    /// There is no memory for it.
    #[tactic(auto, using(crate::proofs::Short::is_name_of))]
    pub fn into_name(self, alloc: Global) -> Result<Name, AllocError>
        requires { is_short self ≡ true }
        ensures { IfOk result (λ name. name ≡ self) }
    {
        name_of(alloc, self.text())
    }
}
