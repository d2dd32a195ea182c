//! Tokens, and the faults that stand where there is none.

/// What a token is: an identifier, a word that names nothing, or punctuation.
#[derive(Clone, Copy, Debug, PartialEq, Eq)]
pub enum TokenKind {
    /// A word that isn't reserved, of any length.
    Word,
    /// One of Java's keywords, `true`, `false`, `null` or a lone `_`.
    Reserved,
    /// A punctuation text, as `{` or `<->`.
    Mark,
}

/// A token, cut out of the source.
#[derive(Clone, Copy, Debug)]
pub struct Token<'a> {
    /// What it is.
    pub kind: TokenKind,
    /// Its text.
    pub text: &'a str,
    /// The place of its first byte in the source.
    pub at: usize,
}

/// Why no token stands at a place, with the place.
#[derive(Clone, Copy, Debug, PartialEq, Eq)]
pub enum LexFault {
    /// A character that begins no token.
    BadChar(usize),
    /// A `/*` with no `*/` behind it.
    OpenComment(usize),
}
