//! The text of a name, wherever it lies.

ghost use Rattle.std.specs.Prelude.{◌≡◌, IfOk};
ghost use Rattle.cfj_words.specs.Spellings.{spelling_bytes};

use crate::boxed::Boxed;
use crate::short_text::{MOST_SHORT_BYTES, ShortText};
use std::alloc::{AllocError, Global};

/// The text of a name. Most names are short and take no memory.
#[derive(Debug, Drop)]
pub(crate) enum Spelling {
    /// A few bytes, in the value itself.
    Short(ShortText),
    /// More. The box keeps the value as small as a `String`.
    Long(Boxed<String>),
}

impl Spelling {
    /// The spelling of this text.
    ///
    /// # Errors
    ///
    /// There is no memory for it.
    pub(crate) fn of(alloc: Global, text: &str) -> Result<Spelling, AllocError>
        ensures { IfOk result (λ spelling. spelling_bytes spelling ≡ text.now) }
    {
        if text.len() <= MOST_SHORT_BYTES {
            return Ok(Spelling::Short(ShortText::of(text)));
        }
        let long = String::from_str(alloc, text)?;
        Ok(Spelling::Long(Boxed::new(alloc, long)?))
    }

    /// The text.
    pub(crate) fn text(&self) -> &str
        ensures { result.now ≡ spelling_bytes self.now }
    {
        match self {
            Spelling::Short(text) => text.text(),
            Spelling::Long(text) => text.get().as_str(),
        }
    }
}
