//! The next token of a lexer.

ghost use Rattle.std.specs.Prelude.{◌≡◌, ◌+◌, ◌-◌, ◌<◌, ◌≤◌, length};
ghost use Rattle.std.specs.Str.{chars};
ghost use Rattle.cfj_words.specs.Lexemes.{next_lexeme};
ghost use Rattle.fj_lexer.specs.Lexing.{Gives, IfToken};

use crate::lexeme::first_piece;
use crate::lexer::Lexer;
use crate::skip::skip_blanks;
use crate::token::{LexFault, Token};
use cfj_words::split_first;

impl<'a> Lexer<'a> {
    /// The next token, or the fault that stands in its place; `None` at the end.
    ///
    /// A token is a slice of the source, its place is behind the tokens before it, and the lexer then stands right behind it.
    /// Behind a fault nothing is left, so that every later call gives `None`.
    pub fn next(&mut self) -> Option<Result<Token<'a>, LexFault>>
        ensures given { Gives (next_lexeme (chars self.old.rest.now)) self.old self.new result }
        ensures same { self.new.text.now ≡ self.old.text.now }
        ensures rises { IfToken result (λ token. length self.old.text.now - length self.old.rest.now ≤ token.at) }
        ensures filled { IfToken result (λ token. 0 < length token.text.now) }
        ensures behind { IfToken result (λ token. token.at + length token.text.now ≡ length self.new.text.now - length self.new.rest.now) }
        ensures shorter { IfToken result (λ _. length self.new.rest.now < length self.old.rest.now) }
    {
        let from = match skip_blanks(self.rest) {
            Ok(from) => from,
            Err(open) => {
                let at = self.text.len() - open.len();
                self.rest = "";
                return Some(Err(LexFault::OpenComment(at)));
            }
        };
        let at = self.text.len() - from.len();
        match split_first(from) {
            Some((first, after)) => match first_piece(from, first, after) {
                Some(piece) => {
                    self.rest = piece.rest;
                    Some(Ok(Token {
                        kind: piece.kind,
                        text: piece.text,
                        at,
                    }))
                }
                None => {
                    self.rest = "";
                    Some(Err(LexFault::BadChar(at)))
                }
            },
            None => {
                self.rest = "";
                None
            }
        }
    }
}
