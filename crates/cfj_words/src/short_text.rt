//! Texts that lie in their own value.

ghost use Rattle.std.specs.Prelude.{◌≡◌, ◌≤◌, length};
ghost use Rattle.std.specs.Str.{IsUtf8};

use std::marker::Model;
use std::str;

/// The most bytes of a text that lies in the value itself. With the length and an enum's tag it takes 24 bytes, as a `String`.
pub(crate) const MOST_SHORT_BYTES: usize = 22;

/// A text of a few bytes, which lie in the value itself.
///
/// Contracts see it as its bytes.
#[derive(Debug, Drop)]
pub(crate) struct ShortText {
    length: u8,
    bytes: [u8; MOST_SHORT_BYTES],
}

impl Model for ShortText {
    ghost use Rattle.std.specs.Prelude.{List, ℕ, ◌≤◌, take};
    ghost use Rattle.std.specs.Str.{IsUtf8};

    ghost Value = { List ℕ };

    ghost view = { λ t. take t.length t.bytes };

    ghost invariant = { λ t. (t.length ≤ 22) × IsUtf8 (take t.length t.bytes) };
}

impl ShortText {
    /// A copy of this text.
    pub(crate) fn of(text: &str) -> ShortText
        requires { length text.now ≤ 22 }
        ensures { result ≡ text.now }
    {
        let mut bytes = [0; MOST_SHORT_BYTES];
        bytes[..text.len()].copy_from_slice(text.as_bytes());
        ShortText {
            length: text.len() as u8,
            bytes,
        }
    }

    /// The text.
    pub(crate) fn text(&self) -> &str
        ensures { result.now ≡ self.now }
    {
        unsafe { str::from_utf8_unchecked(&self.bytes[..self.length as usize]) }
    }
}
