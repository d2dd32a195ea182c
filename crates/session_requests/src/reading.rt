//! The request that a line is.

ghost use Rattle.std.specs.Prelude.{◌≡◌, ℕ, List, Some, None, IfOk, IfErr, MatchOption, IsSome, is_none, option_map, string_bytes};
ghost use Rattle.serde_json.specs.View.{view, members_view};
ghost use Rattle.serde_json.specs.Find.{get, as_object};
ghost use Rattle.session_requests.specs.BadLines as bad;
ghost use Rattle.session_requests.specs.Ops.{fields, key};
ghost use Rattle.session_requests.specs.Reads.{Answers, AnswersRead, Reads};
ghost use Rattle.session_requests.specs.Refusals.{IsExtra, IsWrongAmong, IsRefused};
ghost use Rattle.session_requests.specs.Requests.{IsRequest, IsRequestOf};
ghost use Rattle.session_requests.specs.declared.op.Op.TheVariants as asked;

use crate::bad_line::BadLine;
use crate::edits::edit_of;
use crate::field::Field;
use crate::members::{number_at, text_at, values_at};
use crate::op::{EditOp, Op};
use crate::request::Request;
use crate::unread::Unread;
use cfj_model::Text;
use json_lines::read_line;
use serde_json::{Map, Value};
use std::alloc::{AllocError, Global};

/// Reads a line without its newline: the request that it is, or the first cause for which it is none. The only error is want of
/// memory.
pub fn read_request(alloc: Global, line: &[u8]) -> Result<Result<Request, BadLine>, AllocError>
    ensures { IfOk result (Reads line.now) }
{
    let value = read_line(alloc, line)?;
    told(alloc, value)
}

/// What is told of a line that was read, or of one that is no JSON.
fn told(alloc: Global, value: Option<Value>) -> Result<Result<Request, BadLine>, AllocError>
    ensures { IfOk result (AnswersRead (option_map view value)) }
{
    match value {
        Some(value) => request_of(alloc, &value),
        None => Ok(Err(BadLine::NotJson)),
    }
}

/// The request that a value is, or the first cause for which it is none. The only error is want of memory.
pub fn request_of(alloc: Global, value: &Value) -> Result<Result<Request, BadLine>, AllocError>
    ensures { IfOk result (Answers (view value.now)) }
{
    match whole_request(alloc, value) {
        Ok(request) => Ok(Ok(request)),
        Err(Unread::Bad(bad)) => Ok(Err(bad)),
        Err(Unread::NoMemory) => Err(AllocError),
    }
}

#[tactic(auto, using(crate::proofs::Causes::wrong_refused, crate::proofs::Causes::extra_refused, crate::proofs::Causes::is_request))]
fn whole_request(alloc: Global, value: &Value) -> Result<Request, Unread>
    ensures ok { IfOk result (IsRequest (view value.now)) }
    ensures err { IfErr result (IsRefused (view value.now)) }
{
    let op = op_at(value)?;
    if let Some(field) = first_missing(op.fields(), value) {
        return Err(Unread::Bad(BadLine::MissingField(field)));
    }
    let request = asked(alloc, op, value)?;
    match first_extra(op, value) {
        None => Ok(request),
        Some(key) => Err(extra(alloc, key)),
    }
}

/// The op of an object.
fn op_at(value: &Value) -> Result<Op, Unread>
    ensures ok { IfOk result (bad.HasOp (view value.now)) }
    ensures err { IfErr result (IsRefused (view value.now)) }
{
    if !value.is_object() {
        return Err(Unread::Bad(BadLine::NotObject));
    }
    let Some(text) = op_text(value) else {
        return Err(Unread::Bad(BadLine::NoOp));
    };
    match Op::of(text) {
        Some(op) => Ok(op),
        None => Err(Unread::Bad(BadLine::UnknownOp)),
    }
}

/// The string `op` of an object.
fn op_text(value: &Value) -> Option<&str>
    ensures { MatchOption result ((text : List ℕ) → bad.HasOpText (view value.now) text → ⊥) (λ text. bad.HasOpText (view value.now) text.now) }
{
    value.get("op").and_then(Value::as_str)
}

/// The first of the fields that an object hasn't.
fn first_missing(fields: &[Field], value: &Value) -> Option<Field>
    ensures { result ≡ bad.first_missing fields.now (view value.now) }
{
    fields.iter().copied().find(|field| lacks(value, *field))
}

/// Whether an object hasn't this field.
fn lacks(value: &Value, field: Field) -> bool
    ensures { result ≡ is_none (get (key field) (view value.now)) }
{
    value.get(field.key()).is_none()
}

/// The first key of an object that a request with this op hasn't.
fn first_extra(op: Op, value: &Value) -> Option<&str>
    ensures { option_map (λ key. key.now) result ≡ bad.first_extra op (view value.now) }
{
    match value.as_object() {
        Some(members) => extra_key(op, members),
        None => None,
    }
}

fn extra_key(op: Op, members: &Map<String, Value>) -> Option<&str>
    ensures { option_map (λ key. key.now) result ≡ bad.extra_among op (members_view members.now.entries) }
{
    for (key, _member) in members.iter() {
        if !op.may_have(key.as_str()) {
            return Some(key.as_str());
        }
    }
    None
}

/// A member with this key is too many.
fn extra(alloc: Global, key: &str) -> Unread
    ensures { IsExtra key.now result }
{
    match String::from_str(alloc, key) {
        Ok(key) => Unread::Bad(BadLine::ExtraField(Text::of(key))),
        Err(_) => Unread::NoMemory,
    }
}

/// The request with this op, by the object's fields.
fn asked(alloc: Global, op: Op, object: &Value) -> Result<Request, Unread>
    ensures ok { IfOk result (IsRequestOf (view object.now) op) }
    ensures err { IfErr result (IsWrongAmong (fields op) (view object.now)) }
{
    match op {
        Op::Edit(op) => asked_edit(alloc, op, object),
        Op::Refresh => Ok(Request::Refresh),
        Op::Read => Ok(Request::Read),
        Op::Entries => Ok(Request::Entries),
        Op::Source => Ok(Request::Source),
        Op::Export => asked_export(alloc, object),
        Op::View => asked_view(alloc, object),
        Op::Done => Ok(Request::Done),
    }
}

#[tactic(auto, using(crate::proofs::FirstWrong::first_wrong, crate::proofs::FirstWrong::later_wrong))]
fn asked_edit(alloc: Global, op: EditOp, object: &Value) -> Result<Request, Unread>
    ensures ok { IfOk result (IsRequestOf (view object.now) (asked.Edit op)) }
    ensures err { IfErr result (IsWrongAmong (fields (asked.Edit op)) (view object.now)) }
{
    let base = number_at(object, Field::Base)?;
    let edit = edit_of(alloc, op, object)?;
    Ok(Request::Edit { base, edit })
}

#[tactic(auto, using(crate::proofs::FirstWrong::first_wrong, crate::proofs::FirstWrong::later_wrong))]
fn asked_export(alloc: Global, object: &Value) -> Result<Request, Unread>
    ensures ok { IfOk result (IsRequestOf (view object.now) asked.Export) }
    ensures err { IfErr result (IsWrongAmong (fields asked.Export) (view object.now)) }
{
    let select = values_at(alloc, object, Field::Select)?;
    Ok(Request::Export { select })
}

#[tactic(auto, using(crate::proofs::FirstWrong::first_wrong, crate::proofs::FirstWrong::later_wrong))]
fn asked_view(alloc: Global, object: &Value) -> Result<Request, Unread>
    ensures ok { IfOk result (IsRequestOf (view object.now) asked.View) }
    ensures err { IfErr result (IsWrongAmong (fields asked.View) (view object.now)) }
{
    let feature = text_at(alloc, object, Field::Feature)?;
    Ok(Request::View { feature })
}
