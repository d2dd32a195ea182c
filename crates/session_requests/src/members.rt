//! The values of single fields.

ghost use Rattle.std.specs.Prelude.{◌≡◌, ℕ, List, Some, IfOk, IfErr, IfSome, IfNone, MatchOption, All};
ghost use Rattle.serde_json.specs.Data.{Items as SeenItems, number, unsigned, string, array};
ghost use Rattle.serde_json.specs.Find.{get};
ghost use Rattle.serde_json.specs.View.{view, items_view};
ghost use Rattle.session_requests.specs.Ops.{key};
ghost use Rattle.session_requests.specs.Fields as spec;
ghost use Rattle.session_requests.specs.Refusals.{IsWrong};

use crate::field::Field;
use crate::spelled::Spelled;
use crate::unread::{Unread, wrong};
use cfj_model::{Items, Text};
use serde_json::Value;
use std::alloc::{AllocError, Global};

/// The number of 64 bits in a field.
#[tactic(auto, using(crate::proofs::Values::number_of))]
fn u64_at(object: &Value, field: Field) -> Option<u64>
    ensures { MatchOption result ((n : ℕ) → get (key field) (view object.now) ≡ Some (number (unsigned n)) → ⊥)
        (λ n. get (key field) (view object.now) ≡ Some (number (unsigned n))) }
{
    object.get(field.key()).and_then(Value::as_u64)
}

/// The string in a field.
#[tactic(auto, using(crate::proofs::Values::string_of))]
fn str_at(object: &Value, field: Field) -> Option<&str>
    ensures { MatchOption result ((text : List ℕ) → spec.HasText (view object.now) field text → ⊥)
        (λ text. spec.HasText (view object.now) field text.now) }
{
    object.get(field.key()).and_then(Value::as_str)
}

/// The array in a field.
#[tactic(auto, using(crate::proofs::Values::array_of))]
fn array_at(object: &Value, field: Field) -> Option<&Vec<Value>>
    ensures { MatchOption result ((items : SeenItems) → get (key field) (view object.now) ≡ Some (array items) → ⊥)
        (λ list. get (key field) (view object.now) ≡ Some (array (items_view list.now.items))) }
{
    object.get(field.key()).and_then(Value::as_array)
}

/// The number of 32 bits in a field.
#[tactic(auto, using(crate::proofs::Values::no_number, crate::proofs::Values::too_large))]
pub(crate) fn number_at(object: &Value, field: Field) -> Result<u32, Unread>
    ensures ok { IfOk result (spec.HasNumber (view object.now) field) }
    ensures err { IfErr result (IsWrong field ((n : ℕ) × spec.HasNumber (view object.now) field n)) }
{
    let Some(number) = u64_at(object, field) else {
        return Err(wrong(field));
    };
    if number > u64::from(u32::MAX) {
        return Err(wrong(field));
    }
    Ok(number as u32)
}

/// The text in a field.
pub(crate) fn text_at(alloc: Global, object: &Value, field: Field) -> Result<Text, Unread>
    ensures ok { IfOk result (spec.HasText (view object.now) field) }
    ensures err { IfErr result (IsWrong field ((text : List ℕ) × spec.HasText (view object.now) field text)) }
{
    let Some(text) = str_at(object, field) else {
        return Err(wrong(field));
    };
    Ok(Text::of(String::from_str(alloc, text)?))
}

/// What the text in a field stands for.
pub(crate) fn value_at<T: Spelled + Drop>(
    alloc: Global,
    object: &Value,
    field: Field,
) -> Result<T, Unread>
    ensures ok { IfOk result (λ x. spec.HasText (view object.now) field (T.spelling x) × T.IsFine x) }
    ensures err { IfErr result (IsWrong field ((x : T) × spec.HasText (view object.now) field (T.spelling x) × T.IsFine x)) }
{
    let Some(text) = str_at(object, field) else {
        return Err(wrong(field));
    };
    match T::of_text(alloc, text)? {
        Some(value) => Ok(value),
        None => Err(wrong(field)),
    }
}

/// What the texts of the array in a field stand for.
pub(crate) fn values_at<T: Spelled + Drop>(
    alloc: Global,
    object: &Value,
    field: Field,
) -> Result<Items<T>, Unread>
    ensures ok { IfOk result (λ xs. (get (key field) (view object.now) ≡ Some (array (spec.text_items T.spelling xs))) × All T.IsFine xs) }
    ensures err { IfErr result (IsWrong field ((xs : List T) × (get (key field) (view object.now) ≡ Some (array (spec.text_items T.spelling xs))) × All T.IsFine xs)) }
{
    let Some(list) = array_at(object, field) else {
        return Err(wrong(field));
    };
    match read_values(alloc, list.as_slice())? {
        Some(values) => Ok(values),
        None => Err(wrong(field)),
    }
}

/// What the texts in a list stand for; `None` exactly where one of its items stands for nothing.
fn read_values<T: Spelled + Drop>(
    alloc: Global,
    list: &[Value],
) -> Result<Option<Items<T>>, AllocError>
    ensures found { IfOk result (λ found. IfSome found (λ xs. (items_view list.now ≡ spec.text_items T.spelling xs) × All T.IsFine xs)) }
    ensures none { IfOk result (λ found. IfNone found ((xs : List T) → items_view list.now ≡ spec.text_items T.spelling xs → All T.IsFine xs → ⊥)) }
{
    let mut values = Vec::new(alloc);
    'items: for item in list {
        let Some(value) = read_value::<T>(alloc, item)? else {
            return Ok(None);
        };
        values.push(value)?;
    }
    Ok(Some(Items::of(values)))
}

/// What an item stands for; `None` exactly where it is no string, or one that stands for nothing.
fn read_value<T: Spelled + Drop>(alloc: Global, item: &Value) -> Result<Option<T>, AllocError>
    ensures found { IfOk result (λ found. IfSome found (λ x. (view item.now ≡ string (T.spelling x)) × T.IsFine x)) }
    ensures none { IfOk result (λ found. IfNone found ((x : T) → view item.now ≡ string (T.spelling x) → T.IsFine x → ⊥)) }
{
    match str_of(item) {
        Some(text) => T::of_text(alloc, text),
        None => Ok(None),
    }
}

/// The string that a value is.
#[tactic(auto, using(crate::proofs::Values::text_of))]
fn str_of(value: &Value) -> Option<&str>
    ensures { MatchOption result ((text : List ℕ) → view value.now ≡ string text → ⊥) (λ text. view value.now ≡ string text.now) }
{
    value.as_str()
}
