//! The line of a reply.

ghost use Rattle.std.specs.Prelude.{◌≡◌, IfOk, string_bytes};
ghost use Rattle.json_lines.specs.LineTexts.{line_text};
ghost use Rattle.serde_json.specs.View.{view};
ghost use Rattle.session_replies.specs.ReplyData.{reply_data};

use crate::bad_lines::bad_line_value;
use crate::edits::edit_reply_value;
use crate::reply::Reply;
use crate::reports::{
    bad_names_value, bytes_value, edition_value, invalid_value, lines_value, read_value, word_value,
};
use json_lines::line_of;
use serde_json::Value;
use std::alloc::{AllocError, Global};

/// The line of a reply, with its newline. The bytes that follow the line of a source or a variant aren't in it.
pub fn reply_text(alloc: Global, reply: &Reply) -> Result<String, AllocError>
    ensures { IfOk result (λ text. string_bytes text ≡ line_text (reply_data reply.now)) }
{
    let value = reply_value(alloc, reply)?;
    line_of(alloc, &value)
}

fn reply_value(alloc: Global, reply: &Reply) -> Result<Value, AllocError>
    ensures { IfOk result (λ value. view value ≡ reply_data reply.now) }
{
    match reply {
        Reply::Edit(answer) => edit_reply_value(alloc, answer),
        Reply::Full => word_value(alloc, "full"),
        Reply::Published { edition, version } => {
            edition_value(alloc, *edition, "published", *version)
        }
        Reply::Already { edition, version } => edition_value(alloc, *edition, "already", *version),
        Reply::Read {
            broken,
            edition,
            undecided,
            verdict,
            version,
        } => read_value(
            alloc,
            *broken,
            *edition,
            *undecided,
            verdict.text(),
            *version,
        ),
        Reply::Entries {
            edition,
            lines,
            version,
        } => lines_value(alloc, *edition, lines.slice(), "entries", *version),
        Reply::View {
            edition,
            lines,
            version,
        } => lines_value(alloc, *edition, lines.slice(), "view", *version),
        Reply::Source {
            bytes,
            edition,
            version,
        } => bytes_value(alloc, *bytes, *edition, "source", *version),
        Reply::Variant {
            bytes,
            edition,
            version,
        } => bytes_value(alloc, *bytes, *edition, "variant", *version),
        Reply::Invalid {
            constraint,
            edition,
            version,
        } => invalid_value(alloc, *constraint, *edition, *version),
        Reply::BadNames {
            edition,
            name,
            reason,
            version,
        } => bad_names_value(alloc, *edition, name.as_str(), reason.text(), *version),
        Reply::BadLine(bad) => bad_line_value(alloc, bad),
        Reply::Done => word_value(alloc, "done"),
    }
}
