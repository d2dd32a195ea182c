//! What lines are where the text of a source is told: laws of the definitions alone, which need no code.

ghost use Rattle.std.specs.Prelude.{◌≡◌, ℕ, ◌<◌, List, ◌∷◌, length, Some};
ghost use Rattle.cide_io.specs.Known.{Known};
ghost use Rattle.source_lines.specs.LineReads.{IsLong, IsNextLine};
ghost use Rattle.source_lines.specs.Texts.{lines_in};

/// The next line is the first line of the text, and the others are those of what is left.
pub fn next_line_is_first()
    ensures { (text line : List ℕ) (new : Known) → IsNextLine (Some text) line new
        → (rest : List ℕ) × (new ≡ Some rest) × (lines_in text ≡ line ∷ lines_in rest) }
{}

/// A line is too long only where the first line of the text has more bytes than the limit.
pub fn long_line_is_first()
    ensures { (text : List ℕ) (limit : ℕ) → IsLong (Some text) limit
        → (line : List ℕ) × (lines : List (List ℕ)) × (lines_in text ≡ line ∷ lines) × (limit < length line) }
{}
