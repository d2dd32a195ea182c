//! The lexer: a text, and how much of it is read.

ghost use Rattle.std.specs.Prelude.{◌≡◌};
ghost use Rattle.fj_lexer.specs.Ends.{IsEndOf};

/// A text, and the end of it that is still to be read.
#[derive(Drop)]
pub struct Lexer<'a> {
    /// The whole text, in which places are counted.
    pub text: &'a str,
    /// What hasn't been read. Nothing is left behind a fault.
    pub rest: &'a str,
    ghost end: { IsEndOf rest.now text.now },
}

impl<'a> Lexer<'a> {
    /// A lexer that stands at the start of this text.
    pub fn new(text: &'a str) -> Lexer<'a>
        ensures text { result.text.now ≡ text.now }
        ensures rest { result.rest.now ≡ text.now }
    {
        Lexer { text, rest: text }
    }
}
