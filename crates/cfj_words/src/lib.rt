//! The words of coloured Featherweight Java: characters, tokens and names, and the small types that every crate keeps data in.
//!
//! `specs/` says what a text's characters, lexemes and tokens are, which words are reserved, and what a name is. `Items`, `Boxed`
//! and `Text` hold what `Vec`, `Box` and `String` hold, and contracts see them as a list, as what the box holds and as bytes, so that a
//! tree of them is plain data there.
#![tactic(auto)]

mod boxed;
mod character;
mod copied;
mod items;
mod name;
mod short_text;
mod spelling;
mod text;

pub use boxed::Boxed;
pub use character::split_first;
pub use copied::{Copied, both, copied_items};
pub use items::Items;
pub use name::{MOST_NAME_BYTES, Name, continues_word, is_identifier, is_reserved, starts_word};
pub use text::Text;
