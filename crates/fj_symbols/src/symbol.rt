//! Tokens as the grammar knows them.

ghost use Rattle.std.specs.Prelude.{◌≡◌, ◌∷◌, [], true};
ghost use Rattle.cfj_words.specs.Names.{is_reserved};
ghost use Rattle.cfj_words.specs.Tokens.{is_reserved_word, mark_token, word_token};
ghost use Rattle.fj_symbols.specs.Views.{arrow_token, symbol_seen, token_read};

use fj_lexer::{Token, TokenKind};

/// A token as the grammar knows it.
#[derive(Clone, Copy)]
pub enum Symbol<'a> {
    Id(&'a str),
    Class,
    Extends,
    Super,
    This,
    New,
    Return,
    True,
    False,
    /// A reserved word that the grammar doesn't use.
    Reserved,
    OpenBrace,
    CloseBrace,
    OpenParen,
    CloseParen,
    Semicolon,
    Comma,
    Dot,
    Equals,
    At,
    Bang,
    Ampersand,
    Bar,
    Arrow,
    DoubleArrow,
    /// The end of the text.
    End,
}

impl<'a> Symbol<'a> {
    /// Whether it is a reserved word.
    pub fn is_reserved_word(self) -> bool
        ensures { result ≡ is_reserved_word (symbol_seen self.entry) }
    {
        match self {
            Symbol::Class
            | Symbol::Extends
            | Symbol::Super
            | Symbol::This
            | Symbol::New
            | Symbol::Return
            | Symbol::True
            | Symbol::False
            | Symbol::Reserved => true,
            _ => false,
        }
    }
}

/// What a token of the lexer is.
pub fn symbol_of<'a>(token: Token<'a>) -> Symbol<'a>
    requires { token.kind ≡ TokenKind.Reserved → is_reserved token.text.now ≡ true }
    ensures { symbol_seen result ≡ token_read token.entry.kind token.entry.text.now }
{
    match token.kind {
        TokenKind::Word => Symbol::Id(token.text),
        TokenKind::Reserved => reserved_symbol(token.text),
        TokenKind::Mark => mark_symbol(token.text),
    }
}

/// What a reserved word is.
#[tactic(auto, unfolding(cfj_words::specs::Tokens::word_token))]
fn reserved_symbol(word: &str) -> Symbol<'static>
    requires { is_reserved word.now ≡ true }
    ensures { symbol_seen result ≡ word_token word.now }
{
    if word == "class" {
        Symbol::Class
    } else if word == "extends" {
        Symbol::Extends
    } else if word == "super" {
        Symbol::Super
    } else if word == "this" {
        Symbol::This
    } else if word == "new" {
        Symbol::New
    } else if word == "return" {
        Symbol::Return
    } else if word == "true" {
        Symbol::True
    } else if word == "false" {
        Symbol::False
    } else {
        Symbol::Reserved
    }
}

/// What a punctuation text is.
#[tactic(auto, using(crate::proofs::Marks::single, crate::proofs::Marks::arrow))]
fn mark_symbol(mark: &str) -> Symbol<'static>
    ensures { symbol_seen result ≡ mark_token mark.now }
{
    if mark.len() == 1 {
        single_mark(mark.as_bytes()[0])
    } else {
        arrow(mark)
    }
}

/// What a punctuation text of more bytes is.
fn arrow(mark: &str) -> Symbol<'static>
    ensures { symbol_seen result ≡ arrow_token mark.now }
{
    if mark == "->" {
        Symbol::Arrow
    } else {
        Symbol::DoubleArrow
    }
}

/// What a punctuation text of this one byte is.
#[tactic(auto, unfolding(cfj_words::specs::Tokens::mark_token))]
fn single_mark(byte: u8) -> Symbol<'static>
    ensures { symbol_seen result ≡ mark_token (byte ∷ []) }
{
    match byte {
        b'{' => Symbol::OpenBrace,
        b'}' => Symbol::CloseBrace,
        b'(' => Symbol::OpenParen,
        b')' => Symbol::CloseParen,
        b';' => Symbol::Semicolon,
        b',' => Symbol::Comma,
        b'.' => Symbol::Dot,
        b'=' => Symbol::Equals,
        b'@' => Symbol::At,
        b'!' => Symbol::Bang,
        b'&' => Symbol::Ampersand,
        b'|' => Symbol::Bar,
        _ => Symbol::DoubleArrow,
    }
}
