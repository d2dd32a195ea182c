//! Lines of JSON.

ghost use Rattle.std.specs.Prelude.{◌≡◌, IfOk, false};
ghost use Rattle.serde_json.specs.View.{view};
ghost use Rattle.serde_json.specs.Written.{has_float};

use json_lines::{line_of, read_line};
use serde_json::{Value, json};
use std::alloc::{AllocError, Global};
use std::test::Fail;

/// A request with members of each kind.
fn request(alloc: Global, base: u64) -> Result<Value, AllocError>
    ensures { IfOk result (λ v. has_float (view v) ≡ false) }
{
    json!(in alloc; {"op": "set", "base": base, "colors": ["A", "B\n"], "dry": true, "more": null})
}

#[test]
fn a_value_is_written_as_its_canonical_text(rt: HostRuntime) -> Result<(), Fail> {
    let alloc = rt.alloc();
    let value = request(alloc, 7)?;
    let line = line_of(alloc, &value)?;
    assert!(rt;
        line.as_str()
            == "{\"base\":7,\"colors\":[\"A\",\"B\\n\"],\"dry\":true,\"more\":null,\"op\":\"set\"}\n"
    );
    Ok(())
}

/// Whether a line is read as JSON.
fn is_read(alloc: Global, line: &[u8]) -> Result<bool, AllocError> {
    Ok(read_line(alloc, line)?.is_some())
}

#[test]
fn a_line_is_read_or_refused(rt: HostRuntime) -> Result<(), Fail> {
    let alloc = rt.alloc();
    let read = read_line(alloc, b" {\"op\": \"read\", \"base\": 12} ")?;
    assert!(rt;
        read.as_ref()
            .and_then(|value| value.get("base"))
            .and_then(Value::as_u64)
            == Some(12)
    );
    assert!(rt; is_read(alloc, b"[]")?);
    for line in [
        b"".as_slice(),
        b"{",
        b"{}{}",
        b"01",
        b"[1,]",
        b"'a'",
        b"\"\xff\"",
    ] {
        assert!(rt; !is_read(alloc, line)?);
    }
    Ok(())
}
