//! A value into a line, and back.

ghost use Rattle.std.specs.Prelude.{◌≡◌, IfOk, false, option_map, string_bytes};
ghost use Rattle.serde_json.specs.View.{view};
ghost use Rattle.serde_json.specs.Written.{has_float};
ghost use Rattle.json_lines.specs.LineTexts.{data_of, line_text};

use serde_json::Value;
use std::alloc::{AllocError, Global};

/// The line of a value that holds no float: its canonical text and a newline.
pub fn line_of(alloc: Global, value: &Value) -> Result<String, AllocError>
    requires { has_float (view value.now) ≡ false }
    ensures { IfOk result (λ s. string_bytes s ≡ line_text (view value.now)) }
{
    let mut line = value.to_string(alloc)?;
    line.push('\n')?;
    Ok(line)
}

/// Reads a line without its newline. It is `None` exactly where the bytes are no JSON, and the only error is want of memory.
pub fn read_line(alloc: Global, line: &[u8]) -> Result<Option<Value>, AllocError>
    ensures { IfOk result (λ o. option_map view o ≡ data_of line.now) }
{
    match Value::from_slice(alloc, line) {
        Ok(value) => Ok(Some(value)),
        Err(error) if error.is_memory() => Err(AllocError),
        Err(_) => Ok(None),
    }
}
