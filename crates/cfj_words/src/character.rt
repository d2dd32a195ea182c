//! The first character of a text.

ghost use Rattle.std.specs.Prelude.{◌≡◌, [], MatchOption};
ghost use Rattle.cfj_words.specs.Characters.{IsSplit};

/// The first character of a text and the text behind it; `None` where the text is empty.
pub fn split_first(text: &str) -> Option<(char, &str)>
    ensures { MatchOption result (text.now ≡ []) (λ r. IsSplit text.now r.0 r.1.now) }
{
    let mut rest = text.chars();
    let first = rest.next()?;
    Some((first, rest.as_str()))
}
