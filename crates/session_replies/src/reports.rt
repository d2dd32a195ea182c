//! What is told of an edition.

ghost use Rattle.std.specs.Prelude.{◌≡◌, IfOk, codes};
ghost use Rattle.serde_json.specs.Data.{object, no_members};
ghost use Rattle.serde_json.specs.View.{view};
ghost use Rattle.session_replies.specs.ReplyData as spec;

use crate::texts::texts_value;
use cfj_model::Text;
use serde_json::{Value, json};
use std::alloc::{AllocError, Global};

/// A reply of one word.
pub(crate) fn word_value(alloc: Global, word: &str) -> Result<Value, AllocError>
    ensures { IfOk result (λ value. view value ≡ spec.word_data word.now) }
{
    json!(in alloc; {"reply": word})
}

/// A reply with the number and the version of an edition alone.
pub(crate) fn edition_value(
    alloc: Global,
    edition: u32,
    word: &str,
    version: u32,
) -> Result<Value, AllocError>
    ensures { IfOk result (λ value. view value ≡ spec.edition_data edition word.now version) }
{
    json!(in alloc; {"edition": edition, "reply": word, "version": version})
}

/// A reply with lines.
pub(crate) fn lines_value(
    alloc: Global,
    edition: u32,
    lines: &[Text],
    word: &str,
    version: u32,
) -> Result<Value, AllocError>
    ensures { IfOk result (λ value. view value ≡ spec.lines_data edition lines.now word.now version) }
{
    let lines = texts_value(alloc, lines)?;
    json!(in alloc; {"edition": edition, "lines": lines, "reply": word, "version": version})
}

/// A reply that bytes follow.
pub(crate) fn bytes_value(
    alloc: Global,
    bytes: u64,
    edition: u32,
    word: &str,
    version: u32,
) -> Result<Value, AllocError>
    ensures { IfOk result (λ value. view value ≡ spec.bytes_data bytes edition word.now version) }
{
    json!(in alloc; {"bytes": bytes, "edition": edition, "reply": word, "version": version})
}

/// A reply to an export whose selection isn't valid.
pub(crate) fn invalid_value(
    alloc: Global,
    constraint: u32,
    edition: u32,
    version: u32,
) -> Result<Value, AllocError>
    ensures { IfOk result (λ value. view value
        ≡ object (spec.has_number (codes "constraint") constraint
        (spec.has_number (codes "edition") edition (spec.reply_and_version (codes "invalid") version)))) }
{
    json!(in alloc; {"constraint": constraint, "edition": edition, "reply": "invalid", "version": version})
}

/// A reply to names of which one is bad.
pub(crate) fn bad_names_value(
    alloc: Global,
    edition: u32,
    name: &str,
    reason: &str,
    version: u32,
) -> Result<Value, AllocError>
    ensures { IfOk result (λ value. view value
        ≡ object (spec.has_number (codes "edition") edition (spec.has_text (codes "name") name.now
        (spec.has_text (codes "reason") reason.now (spec.reply_and_version (codes "badnames") version))))) }
{
    json!(in alloc; {"edition": edition, "name": name, "reason": reason, "reply": "badnames", "version": version})
}

/// A reply with the numbers of an edition.
pub(crate) fn read_value(
    alloc: Global,
    broken: u32,
    edition: u32,
    undecided: u32,
    verdict: &str,
    version: u32,
) -> Result<Value, AllocError>
    ensures { IfOk result (λ value. view value
        ≡ object (spec.has_number (codes "broken") broken (spec.has_number (codes "edition") edition
        (spec.has_text (codes "reply") (codes "read") (spec.has_number (codes "undecided") undecided
        (spec.has_text (codes "verdict") verdict.now (spec.has_number (codes "version") version no_members))))))) }
{
    json!(in alloc; {
        "broken": broken,
        "edition": edition,
        "reply": "read",
        "undecided": undecided,
        "verdict": verdict,
        "version": version
    })
}
