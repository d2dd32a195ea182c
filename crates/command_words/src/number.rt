//! The numbers that words write.

ghost use Rattle.std.specs.Prelude.{◌≡◌, ◌≤◌, IfSome, option_map};
ghost use Rattle.std.specs.List.{list_all};
ghost use Rattle.std.specs.Char.{is_ascii_digit};
ghost use Rattle.command_words.specs.Asked.{is_short_number, number_of, budget_of};

/// The budget where none is given, which is also the greatest.
const MOST_BUDGET: u32 = 20_000;

/// Whether each byte of a text is an ASCII digit.
fn are_digits(text: &str) -> bool
    ensures { result ≡ list_all is_ascii_digit text.now }
{
    text.as_bytes().iter().all(|byte| byte.is_ascii_digit())
}

/// Whether a text is one to five ASCII digits.
fn is_short_number(text: &str) -> bool
    ensures { result ≡ is_short_number text.now }
{
    1 <= text.len() && text.len() <= 5 && are_digits(text)
}

/// The number that a text of one to five ASCII digits writes, if it is from `least` to `most`.
pub fn number_of(least: u32, most: u32, text: &str) -> Option<u32>
    ensures read { result ≡ number_of least most text.now }
    ensures bounded { IfSome result (λ number. (least ≤ number) × (number ≤ most)) }
{
    if !is_short_number(text) {
        return None;
    }
    match text.parse::<u32>() {
        Ok(number) if least <= number && number <= most => Some(number),
        _ => None,
    }
}

/// The budget that a word gives, or the greatest where there is no word.
pub fn budget_of(word: Option<&str>) -> Option<u32>
    ensures read { result ≡ budget_of (option_map (λ text. text.now) word.entry) }
    ensures bounded { IfSome result (λ budget. (1 ≤ budget) × (budget ≤ 20000)) }
{
    match word {
        Some(text) => number_of(1, MOST_BUDGET, text),
        None => Some(MOST_BUDGET),
    }
}
