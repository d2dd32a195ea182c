//! What is told of bad lines.

ghost use Rattle.std.specs.Prelude.{◌≡◌, IfOk, codes};
ghost use Rattle.serde_json.specs.Data.{object};
ghost use Rattle.serde_json.specs.View.{view};
ghost use Rattle.session_replies.specs.ReplyData as spec;

use serde_json::{Value, json};
use session_requests::BadLine;
use std::alloc::{AllocError, Global};

/// What is told of a bad line.
pub(crate) fn bad_line_value(alloc: Global, bad: &BadLine) -> Result<Value, AllocError>
    ensures { IfOk result (λ value. view value ≡ object (spec.bad_line_members bad.now)) }
{
    match bad {
        BadLine::NotJson => bare(alloc, "NotJson"),
        BadLine::NotObject => bare(alloc, "NotObject"),
        BadLine::NoOp => bare(alloc, "NoOp"),
        BadLine::UnknownOp => bare(alloc, "UnknownOp"),
        BadLine::MissingField(field) => named(alloc, "MissingField", field.key()),
        BadLine::WrongField(field) => named(alloc, "WrongField", field.key()),
        BadLine::ExtraField(key) => named(alloc, "ExtraField", key.as_str()),
    }
}

fn bare(alloc: Global, kind: &str) -> Result<Value, AllocError>
    ensures { IfOk result (λ value. view value ≡ object (spec.has_text (codes "kind") kind.now spec.badline)) }
{
    json!(in alloc; {"kind": kind, "reply": "badline"})
}

fn named(alloc: Global, kind: &str, name: &str) -> Result<Value, AllocError>
    ensures { IfOk result (λ value. view value
        ≡ object (spec.has_text (codes "kind") kind.now (spec.has_text (codes "name") name.now spec.badline))) }
{
    json!(in alloc; {"kind": kind, "name": name, "reply": "badline"})
}
