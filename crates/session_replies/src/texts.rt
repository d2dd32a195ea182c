//! Texts as values.

ghost use Rattle.std.specs.Prelude.{◌≡◌, IfOk};
ghost use Rattle.serde_json.specs.Data.{array};
ghost use Rattle.serde_json.specs.View.{view};
ghost use Rattle.session_requests.specs.Fields.{text_items};

use cfj_model::Text;
use serde_json::Value;
use std::alloc::{AllocError, Global};

/// The texts as an array of strings.
pub(crate) fn texts_value(alloc: Global, texts: &[Text]) -> Result<Value, AllocError>
    ensures { IfOk result (λ value. view value ≡ array (text_items (λ text. text) texts.now)) }
{
    let mut items = Vec::new(alloc);
    'texts: for text in texts {
        items.push(Value::try_from_str(alloc, text.as_str())?)?;
    }
    Ok(Value::Array(items))
}
