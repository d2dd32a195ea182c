//! The laws of canonical texts, which need no code.

ghost use Rattle.std.specs.Prelude.{◌≡◌, ◌≤◌, Some, false};
ghost use Rattle.serde_json.specs.Data.{Data, depth};
ghost use Rattle.serde_json.specs.Read.{max_depth, read};
ghost use Rattle.serde_json.specs.Written.{compact_text};
ghost use Rattle.json_lines.specs.Canonical.{HasUtf8Texts, IsCanonical};
ghost use Rattle.json_lines.specs.LineTexts.{data_of, has_newline};

/// The canonical text of data that a service writes reads back as that data.
pub fn canonical_reads_back()
    ensures { (d : Data) → IsCanonical d → depth d ≤ max_depth → read (compact_text d) ≡ Some d }
{}

/// Where its texts are UTF-8 a line that holds it is read as that data.
pub fn canonical_line_is_read()
    ensures { (d : Data) → IsCanonical d → depth d ≤ max_depth → HasUtf8Texts d → data_of (compact_text d) ≡ Some d }
{}

/// It is one line: no newline stands in it.
pub fn canonical_is_one_line()
    ensures { (d : Data) → IsCanonical d → has_newline (compact_text d) ≡ false }
{}
