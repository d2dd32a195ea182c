//! Answers to edits.

ghost use Rattle.std.specs.Prelude.{◌≡◌, IfOk, codes};
ghost use Rattle.serde_json.specs.Data.{object};
ghost use Rattle.serde_json.specs.View.{view};
ghost use Rattle.session_replies.specs.ReplyData as spec;

use crate::reasons::refusal_value;
use edit_replies::EditReply;
use serde_json::{Value, json};
use std::alloc::{AllocError, Global};

/// The object of what is answered to an edit.
pub fn edit_reply_value(alloc: Global, reply: &EditReply) -> Result<Value, AllocError>
    ensures { IfOk result (λ value. view value ≡ spec.edit_reply_data reply.now) }
{
    match reply {
        EditReply::Accepted { place, version } => accepted(alloc, *place, *version),
        EditReply::Refused { place, reason } => refusal_value(alloc, *place, reason),
    }
}

fn accepted(alloc: Global, place: u32, version: u32) -> Result<Value, AllocError>
    ensures { IfOk result (λ value. view value
        ≡ object (spec.has_number (codes "place") place (spec.reply_and_version (codes "accepted") version))) }
{
    json!(in alloc; {"place": place, "reply": "accepted", "version": version})
}
