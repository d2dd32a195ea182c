//! Requests with one byte changed, beside a slow reading of the table of ops.

use crate::tests::requests::bad_told;
use cfj_model::{Name, Site, read_site};
use json_lines::read_line;
use serde_json::Value;
use session_requests::read_request;
use std::alloc::{AllocError, Global};
use std::test::Fail;

/// What stands in a field.
#[derive(Clone, Copy)]
enum Kind {
    Number,
    Identifier,
    Path,
    Member,
    Text,
    Marks,
    Identifiers,
}

/// Each op with its fields in order.
const TABLE: [(&str, &[(&str, Kind)]); 16] = [
    ("add_class", &[("base", Kind::Number), ("text", Kind::Text)]),
    (
        "remove_class",
        &[("base", Kind::Number), ("class", Kind::Identifier)],
    ),
    (
        "add_member",
        &[
            ("base", Kind::Number),
            ("class", Kind::Identifier),
            ("text", Kind::Text),
        ],
    ),
    (
        "replace_member",
        &[
            ("base", Kind::Number),
            ("path", Kind::Member),
            ("text", Kind::Text),
        ],
    ),
    (
        "remove_member",
        &[("base", Kind::Number), ("path", Kind::Member)],
    ),
    (
        "set_super",
        &[
            ("base", Kind::Number),
            ("class", Kind::Identifier),
            ("super", Kind::Text),
        ],
    ),
    (
        "set_constructor",
        &[
            ("base", Kind::Number),
            ("class", Kind::Identifier),
            ("text", Kind::Text),
        ],
    ),
    (
        "set_colors",
        &[
            ("base", Kind::Number),
            ("path", Kind::Path),
            ("colors", Kind::Marks),
        ],
    ),
    ("set_model", &[("base", Kind::Number), ("text", Kind::Text)]),
    ("refresh", &[]),
    ("read", &[]),
    ("entries", &[]),
    ("source", &[]),
    ("export", &[("select", Kind::Identifiers)]),
    ("view", &[("feature", Kind::Text)]),
    ("done", &[]),
];

/// A good line for each op.
const GOOD: [&str; 16] = [
    "{\"op\":\"add_class\",\"base\":0,\"text\":\"x\"}",
    "{\"op\":\"remove_class\",\"base\":10,\"class\":\"A\"}",
    "{\"op\":\"add_member\",\"base\":0,\"class\":\"A\",\"text\":\"x\"}",
    "{\"op\":\"replace_member\",\"base\":0,\"path\":\"A.m()\",\"text\":\"x\"}",
    "{\"op\":\"remove_member\",\"base\":0,\"path\":\"A.f~1\"}",
    "{\"op\":\"set_super\",\"base\":0,\"class\":\"A\",\"super\":\"B\"}",
    "{\"op\":\"set_constructor\",\"base\":0,\"class\":\"A\",\"text\":\"x\"}",
    "{\"op\":\"set_colors\",\"base\":0,\"path\":\"A.new(0)\",\"colors\":[\"F\",\"!G\"]}",
    "{\"op\":\"set_model\",\"base\":0,\"text\":\"x\"}",
    "{\"op\":\"refresh\"}",
    "{\"op\":\"read\"}",
    "{\"op\":\"entries\"}",
    "{\"op\":\"source\"}",
    "{\"op\":\"export\",\"select\":[\"F\",\"G\"]}",
    "{\"op\":\"view\",\"feature\":\"F\"}",
    "{\"op\":\"done\"}",
];

/// What a byte is changed to; the last stands for no byte.
const CHANGES: [u8; 10] = *b"1.-a!}\"~ \0";

fn is_identifier(alloc: Global, text: &str) -> Result<bool, AllocError> {
    Ok(text != "this" && Name::of(alloc, text)?.is_some())
}

fn are_identifiers(alloc: Global, value: &Value, signed: bool) -> Result<bool, AllocError> {
    let Some(items) = value.as_array() else {
        return Ok(false);
    };
    for item in items {
        let Some(text) = item.as_str() else {
            return Ok(false);
        };
        let name = match text.strip_prefix('!') {
            Some(name) => if signed { name } else { text },
            None => text,
        };
        if !is_identifier(alloc, name)? {
            return Ok(false);
        }
    }
    Ok(true)
}

fn is_member(site: &Option<Site>) -> bool {
    match site {
        Some(Site::Field(_, _, _)) => true,
        Some(Site::Method(_, _, _)) => true,
        _ => false,
    }
}

fn is_right(alloc: Global, kind: Kind, value: &Value) -> Result<bool, AllocError> {
    let text = value.as_str();
    match kind {
        Kind::Number => Ok(value.as_u64().is_some_and(|number| number < 4_294_967_296)),
        Kind::Text => Ok(text.is_some()),
        Kind::Marks => are_identifiers(alloc, value, true),
        Kind::Identifiers => are_identifiers(alloc, value, false),
        Kind::Identifier => match text {
            Some(text) => is_identifier(alloc, text),
            None => Ok(false),
        },
        Kind::Path => match text {
            Some(text) => Ok(read_site(alloc, text)?.is_some()),
            None => Ok(false),
        },
        Kind::Member => match text {
            Some(text) => Ok(is_member(&read_site(alloc, text)?)),
            None => Ok(false),
        },
    }
}

/// The first cause in the fields of an object, in short; empty where there is none.
fn cause_among(
    alloc: Global,
    value: &Value,
    fields: &[(&str, Kind)],
) -> Result<String, AllocError> {
    for (key, _) in fields {
        if value.get(*key).is_none() {
            return format!(in alloc; "MissingField {key}");
        }
    }
    for (key, kind) in fields {
        if let Some(found) = value.get(*key)
            && !is_right(alloc, *kind, found)?
        {
            return format!(in alloc; "WrongField {key}");
        }
    }
    if let Some(members) = value.as_object() {
        for (key, _) in members.iter() {
            let known = fields.iter().any(|field| field.0 == key.as_str());
            if key.as_str() != "op" && !known {
                return format!(in alloc; "ExtraField {key}");
            }
        }
    }
    Ok(String::new(alloc))
}

/// The first cause for which a line is no request, in short; empty where there is none.
fn cause(alloc: Global, line: &[u8]) -> Result<String, AllocError> {
    let Some(value) = read_line(alloc, line)? else {
        return String::from_str(alloc, "NotJson");
    };
    if !value.is_object() {
        return String::from_str(alloc, "NotObject");
    }
    let Some(op) = value.get("op").and_then(Value::as_str) else {
        return String::from_str(alloc, "NoOp");
    };
    for (name, fields) in TABLE {
        if op == name {
            return cause_among(alloc, &value, fields);
        }
    }
    String::from_str(alloc, "UnknownOp")
}

/// The line with the byte at a place changed.
fn changed(alloc: Global, line: &[u8], place: usize, to: u8) -> Result<Vec<u8>, AllocError> {
    let mut bytes = Vec::new(alloc);
    for (at, byte) in line.iter().enumerate() {
        if at != place {
            bytes.push(*byte)?;
        } else if to != 0 {
            bytes.push(to)?;
        }
    }
    Ok(bytes)
}

/// Whether the reader tells the cause that the slow reading tells.
fn is_told(alloc: Global, line: &[u8]) -> Result<bool, AllocError> {
    let wanted = cause(alloc, line)?;
    match read_request(alloc, line)? {
        Ok(_) => Ok(wanted.is_empty()),
        Err(bad) => Ok(bad_told(alloc, &bad)?.as_str() == wanted.as_str()),
    }
}

#[test]
fn changed_lines_are_told_by_their_first_cause(rt: HostRuntime) -> Result<(), Fail> {
    let alloc = rt.alloc();
    for good in GOOD {
        let line = good.as_bytes();
        assert!(rt; is_told(alloc, line)?, "{good}");
        for place in 0..line.len() {
            for to in CHANGES {
                let bytes = changed(alloc, line, place, to)?;
                assert!(rt;
                    is_told(alloc, bytes.as_slice())?,
                    "{good} at {place} to {to}"
                );
            }
        }
    }
    Ok(())
}
