//! One token at the front of a text: a word or a punctuation text.

ghost use Rattle.std.specs.Prelude.{◌≡◌, ◌∷◌, ◌++◌, false, MatchOption, length};
ghost use Rattle.std.specs.Str.{chars, IsUtf8};
ghost use Rattle.cfj_words.specs.Names as names;
ghost use Rattle.cfj_words.specs.Lexemes as spec;
ghost use Rattle.fj_lexer.specs.Ends.{IsEndOf};
ghost use Rattle.fj_lexer.specs.Pieces.{begins, IsBehind, IsMarkBefore, IsPiece};
ghost use Rattle.cfj_words.specs.Characters.{IsSplit};
ghost use Rattle.fj_lexer.specs.Kinds.{word_kind};

use crate::ascii::{continues_ascii, starts_ascii};
use crate::token::TokenKind;
use cfj_words::{continues_word, is_reserved, split_first, starts_word};

/// A token's kind and text, and the text behind it.
#[derive(Clone, Copy)]
pub struct Piece<'a> {
    pub kind: TokenKind,
    pub text: &'a str,
    pub rest: &'a str,
}

/// The text behind the characters that go on a word.
///
/// An ASCII byte is a character of its own, so nothing is decoded up to the first byte that is none.
fn word_rest(text: &str) -> &str
    ensures { chars result.now ≡ spec.word_rest (chars text.now) }
{
    let bytes = text.as_bytes();
    let mut at = 0;
    'word: while at < bytes.len() {
        if !continues_ascii(bytes[at]) {
            let rest = &text[at..];
            return if bytes[at].is_ascii() {
                rest
            } else {
                wide_word_rest(rest)
            };
        }
        at += 1;
    }
    ""
}

/// The text behind the characters that go on a word, each of which is decoded.
#[inline(never)]
#[tactic(auto, unfolding(cfj_words::specs::Lexemes::word_rest), using(crate::proofs::Texts::no_characters))]
fn wide_word_rest(text: &str) -> &str
    ensures { chars result.now ≡ spec.word_rest (chars text.now) }
{
    let mut rest = text;
    'word: while let Some((first, after)) = split_first(rest) {
        if !continues_word(first) {
            break;
        }
        rest = after;
    }
    rest
}

/// The text behind this character; `None` where the text doesn't begin with it.
#[tactic(auto, using(crate::proofs::Texts::no_characters))]
fn behind(text: &str, ch: char) -> Option<&str>
    ensures { MatchOption result (begins ch (chars text.now) ≡ false) (λ rest. IsBehind text.now ch rest.now) }
{
    match split_first(text) {
        Some((first, rest)) if first == ch => Some(rest),
        _ => None,
    }
}

/// Whether a word may begin with this character. Only what isn't ASCII is looked up among all characters.
fn begins_word(first: char) -> bool
    ensures { result ≡ names.starts_word first }
{
    if first.is_ascii() {
        starts_ascii(first as u8)
    } else {
        starts_word(first)
    }
}

fn is_single_mark(ch: char) -> bool
    ensures { result ≡ spec.is_single_mark ch }
{
    matches!(
        ch,
        '{' | '}' | '(' | ')' | ';' | ',' | '.' | '=' | '@' | '!' | '&' | '|'
    )
}

/// The text behind a punctuation text that begins with this character; `None` where there is none.
fn mark_rest<'a>(first: char, after: &'a str) -> Option<&'a str>
    requires { names.starts_word first ≡ false }
    ensures { MatchOption result (spec.lexeme_at (first ∷ chars after.now) ≡ spec.NoToken (first ∷ chars after.now)) (λ rest. IsMarkBefore (first ∷ chars after.now) rest.now) }
{
    if is_single_mark(first) {
        return Some(after);
    }
    match first {
        '-' => behind(after, '>'),
        '<' => behind(behind(after, '-')?, '>'),
        _ => None,
    }
}

fn word_kind(word: &str) -> TokenKind
    ensures { result ≡ word_kind word.now }
{
    if is_reserved(word) {
        TokenKind::Reserved
    } else {
        TokenKind::Word
    }
}

/// What stands first in a text that begins with this character; `None` where that is no token.
pub fn first_piece<'a>(text: &'a str, first: char, after: &'a str) -> Option<Piece<'a>>
    requires { IsSplit text.now first after.now }
    ensures { MatchOption result (spec.lexeme_at (chars text.now) ≡ spec.NoToken (chars text.now)) (λ p. IsPiece text.now p) }
{
    if begins_word(first) {
        let rest = word_rest(after);
        let word = before(text, rest);
        return Some(Piece {
            kind: word_kind(word),
            text: word,
            rest,
        });
    }
    match mark_rest(first, after) {
        Some(rest) => Some(Piece {
            kind: TokenKind::Mark,
            text: before(text, rest),
            rest,
        }),
        None => None,
    }
}

/// The part of a text before its end.
fn before<'a>(text: &'a str, rest: &'a str) -> &'a str
    requires { IsEndOf rest.now text.now }
    ensures { text.now ≡ result.now ++ rest.now }
{
    let (front, _) = text.split_at(text.len() - rest.len());
    front
}
