//! Blanks and comments, which stand between tokens.

ghost use Rattle.std.specs.Prelude.{◌≡◌, ◌≤◌, length, MatchOption, MatchResult};
ghost use Rattle.std.specs.Str.{chars, IsUtf8};
ghost use Rattle.cfj_words.specs.Lexemes as spec;
ghost use Rattle.fj_lexer.specs.Skipping.{PassesSlash, IsUnclosed, IsPassed, SkipsTo, SkipsNot};

use crate::ascii::split_ascii;
use cfj_words::split_first;

/// What a slash begins.
pub enum Comment<'a> {
    /// A comment, with the text behind it.
    Passed(&'a str),
    /// A comment with no end.
    Unclosed,
    /// No comment.
    NoComment,
}

fn is_blank(byte: u8) -> bool
    ensures { result ≡ spec.is_blank byte }
{
    // Most bytes are above the blanks, which one comparison tells.
    byte <= b' ' && matches!(byte, b' ' | b'\t' | b'\n' | b'\r' | 0xc)
}

fn is_line_end(ch: char) -> bool
    ensures { result ≡ spec.is_line_end ch }
{
    matches!(ch, '\n' | '\r')
}

/// The text behind the rest of a `//` comment.
#[tactic(auto, unfolding(cfj_words::specs::Lexemes::skipped), using(crate::proofs::Texts::no_characters))]
fn line_rest(text: &str) -> &str
    ensures passed { spec.skipped spec.line (chars text.now) ≡ spec.skipped spec.blanks (chars result.now) }
    ensures shorter { length result.now ≤ length text.now }
{
    let mut rest = text;
    'line: while let Some((first, after)) = split_first(rest) {
        rest = after;
        if is_line_end(first) {
            break;
        }
    }
    rest
}

/// The text behind the rest of a `/*` comment; `None` where it isn't closed.
#[tactic(auto, unfolding(cfj_words::specs::Lexemes::skipped), using(crate::proofs::Texts::no_characters))]
fn block_rest(text: &str) -> Option<&str>
    ensures { MatchOption result (IsUnclosed spec.block text.now) (λ r. IsPassed spec.block text.now r.now) }
{
    let mut rest = text;
    let mut star = false;
    'block: while let Some((first, after)) = split_first(rest) {
        if star && first == '/' {
            return Some(after);
        }
        star = first == '*';
        rest = after;
    }
    None
}

/// What stands behind a slash, `text` being the text behind it.
#[tactic(auto, unfolding(cfj_words::specs::Lexemes::skipped), using(crate::proofs::Texts::no_characters))]
fn behind_slash(text: &str) -> Comment<'_>
    ensures { PassesSlash text.now result }
{
    match split_first(text) {
        Some(('/', after)) => Comment::Passed(line_rest(after)),
        Some(('*', after)) => match block_rest(after) {
            Some(rest) => Comment::Passed(rest),
            None => Comment::Unclosed,
        },
        _ => Comment::NoComment,
    }
}

/// The text behind blanks and comments; as an error, the text from a comment on that isn't closed.
#[tactic(auto, unfolding(cfj_words::specs::Lexemes::skipped), using(crate::proofs::Texts::no_characters))]
pub fn skip_blanks(text: &str) -> Result<&str, &str>
    ensures { MatchResult result (λ rest. SkipsTo text.now rest.now) (λ from. SkipsNot text.now from.now) }
{
    let mut rest = text;
    'blanks: while let Some((first, after)) = split_ascii(rest) {
        if is_blank(first) {
            rest = after;
        } else if first == b'/' {
            match behind_slash(after) {
                Comment::Passed(behind) => rest = behind,
                Comment::Unclosed => return Err(rest),
                Comment::NoComment => return Ok(rest),
            }
        } else {
            return Ok(rest);
        }
    }
    Ok(rest)
}
