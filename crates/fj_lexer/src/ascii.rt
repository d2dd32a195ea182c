//! ASCII characters: which of them go on a word, looked up byte by byte.

ghost use Rattle.std.specs.Prelude.{◌≡◌, ◌<◌, ◌||◌, ◌==◌, false, MatchOption};
ghost use Rattle.std.specs.Bool.{OnTrue};
ghost use Rattle.std.specs.Char.{is_ascii_alphabetic, is_ascii_alphanumeric};
ghost use Rattle.std.specs.Str.{chars};
ghost use Rattle.cfj_words.specs.Characters.{IsSplit};
ghost use Rattle.fj_lexer.specs.Pieces.{begins_ascii};

// For each byte: 2 where it is an ASCII character that begins a word, 1 where it is one that only goes on a word, 0 elsewhere.
static WORD_BYTES: [u8; 256] = *b"\
    00000000000000000000000000000000\
    00002000000000001111111111000000\
    02222222222222222222222222200002\
    02222222222222222222222222200000\
    00000000000000000000000000000000\
    00000000000000000000000000000000\
    00000000000000000000000000000000\
    00000000000000000000000000000000";

/// Whether a byte is an ASCII character that goes on a word.
#[inline(always)]
pub fn continues_ascii(byte: u8) -> bool
    ensures value { result ≡ (is_ascii_alphanumeric byte || byte == 95 || byte == 36) }
    ensures ascii { OnTrue result (byte < 128) }
{
    WORD_BYTES[byte as usize] != b'0'
}

/// Whether a byte is an ASCII character that begins a word.
#[inline(always)]
pub fn starts_ascii(byte: u8) -> bool
    ensures value { result ≡ (is_ascii_alphabetic byte || byte == 95 || byte == 36) }
{
    WORD_BYTES[byte as usize] == b'2'
}

/// The first character of a text and the text behind it, where it is an ASCII character.
///
/// Its byte is the whole character, so nothing is decoded.
#[inline(always)]
pub fn split_ascii(text: &str) -> Option<(u8, &str)>
    ensures { MatchOption result (begins_ascii (chars text.now) ≡ false) (λ r. IsSplit text.now r.0 r.1.now) }
{
    let bytes = text.as_bytes();
    if bytes.is_empty() {
        return None;
    }
    let first = bytes[0];
    if !first.is_ascii() {
        return None;
    }
    Some((first, &text[1..]))
}
