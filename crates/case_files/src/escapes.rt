//! Escapes, a byte at a time.

ghost use Rattle.std.specs.Prelude.{◌<◌, IfSome};

use crate::content::Content;
use std::alloc::AllocError;

/// How far an escape is read.
#[derive(Clone, Copy)]
pub enum Escape {
    /// Outside of any.
    Outside,
    /// Behind a backslash.
    Backslash,
    /// Behind `\x`.
    Hex,
    /// Behind `\x` and a digit of this value.
    Digit(u8),
}

/// The value of a hexadecimal digit.
fn digit_of(byte: u8) -> Option<u8>
    ensures { IfSome result (λ digit. digit < 16) }
{
    match byte {
        b'0'..=b'9' => Some(byte - b'0'),
        b'a'..=b'f' => Some(byte - b'a' + 10),
        _ => None,
    }
}

/// The byte that an escape of one letter stands for.
fn letter_of(byte: u8) -> Option<u8> {
    match byte {
        b'\\' | b'"' => Some(byte),
        b't' => Some(b'\t'),
        b'r' => Some(b'\r'),
        b'n' => Some(b'\n'),
        _ => None,
    }
}

/// Takes the byte behind a backslash.
fn step_behind_backslash(content: &mut Content, byte: u8) -> Result<Option<Escape>, AllocError> {
    if byte == b'x' {
        return Ok(Some(Escape::Hex));
    }
    if byte == b'^' {
        content.mark()?;
        return Ok(Some(Escape::Outside));
    }
    let Some(meant) = letter_of(byte) else {
        return Ok(None);
    };
    content.push(meant)?;
    Ok(Some(Escape::Outside))
}

/// Takes the next byte of a text with escapes; nothing where no escape goes on so.
pub fn step(content: &mut Content, escape: Escape, byte: u8) -> Result<Option<Escape>, AllocError> {
    match escape {
        Escape::Outside if byte == b'\\' => Ok(Some(Escape::Backslash)),
        Escape::Outside => {
            content.push(byte)?;
            Ok(Some(Escape::Outside))
        }
        Escape::Backslash => step_behind_backslash(content, byte),
        Escape::Hex => Ok(digit_of(byte).map(Escape::Digit)),
        Escape::Digit(high) => {
            let Some(low) = digit_of(byte) else {
                return Ok(None);
            };
            content.push((high << 4) | low)?;
            Ok(Some(Escape::Outside))
        }
    }
}
