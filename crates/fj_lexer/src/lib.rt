//! The tokens of a text of coloured Featherweight Java, one at each call.
//!
//! The lexer passes over blanks and comments and cuts the text into words and punctuation. It rests on `cfj_words`, whose
//! definition `next_lexeme` says what stands first in a text. Each call of `Lexer::next` gives exactly that: a token that is a
//! slice of the source, with the place of its first byte; the end; or the one fault that the text has next, with its place. It
//! takes no memory.
#![tactic(auto)]

mod ascii;
mod lexeme;
mod lexer;
mod next;
mod skip;
mod token;

pub use lexer::Lexer;
pub use token::{LexFault, Token, TokenKind};
