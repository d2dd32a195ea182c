//! Lines of requests.

use cfj_model::{Edit, MemberName, Name, Signed, Text};
use session_requests::{BadLine, Request, edit_value, read_request};
use std::alloc::{AllocError, Global};
use std::test::Fail;

/// Names with commas between them.
fn names(alloc: Global, names: &[Name]) -> Result<String, AllocError> {
    let mut told = String::new(alloc);
    for name in names {
        told.push_str(name.text())?;
        told.push(',')?;
    }
    Ok(told)
}

/// Marks with commas behind them.
fn marks(alloc: Global, marks: &[Signed]) -> Result<String, AllocError> {
    let mut told = String::new(alloc);
    for mark in marks {
        if mark.off {
            told.push('!')?;
        }
        told.push_str(mark.name.text())?;
        told.push(',')?;
    }
    Ok(told)
}

/// An edit in short.
fn edit(alloc: Global, edit: &Edit) -> Result<String, AllocError> {
    match edit {
        Edit::AddClass { text } => format!(in alloc; "class {}", text.as_str()),
        Edit::RemoveClass { class } => format!(in alloc; "no class {}", class.text()),
        Edit::AddMember { class, text } => {
            format!(in alloc; "member {} {}", class.text(), text.as_str())
        }
        Edit::ReplaceMember { member, text } => match member {
            MemberName::Field(class, name, alt) => {
                format!(in alloc;
                    "field {} {} {alt} {}",
                    class.text(),
                    name.text(),
                    text.as_str()
                )
            }
            MemberName::Method(class, name, alt) => {
                format!(in alloc;
                    "method {} {} {alt} {}",
                    class.text(),
                    name.text(),
                    text.as_str()
                )
            }
        },
        Edit::RemoveMember { member } => match member {
            MemberName::Field(class, name, alt) => {
                format!(in alloc; "no field {} {} {alt}", class.text(), name.text())
            }
            MemberName::Method(class, name, alt) => {
                format!(in alloc; "no method {} {} {alt}", class.text(), name.text())
            }
        },
        Edit::SetSuper { class, text } => {
            format!(in alloc; "super {} {}", class.text(), text.as_str())
        }
        Edit::SetConstructor { class, text } => {
            format!(in alloc; "new {} {}", class.text(), text.as_str())
        }
        Edit::SetColors { site, marks: of } => {
            let of = marks(alloc, of.slice())?;
            format!(in alloc; "colors {site} {of}")
        }
        Edit::SetModel { text } => format!(in alloc; "model {}", text.as_str()),
    }
}

/// What is told of a line, in short.
fn told(alloc: Global, line: &[u8]) -> Result<String, AllocError> {
    match read_request(alloc, line)? {
        Ok(Request::Edit { base, edit: of }) => {
            let of = edit(alloc, &of)?;
            format!(in alloc; "{base} {of}")
        }
        Ok(Request::Refresh) => String::from_str(alloc, "refresh"),
        Ok(Request::Read) => String::from_str(alloc, "read"),
        Ok(Request::Entries) => String::from_str(alloc, "entries"),
        Ok(Request::Source) => String::from_str(alloc, "source"),
        Ok(Request::Export { select }) => {
            let select = names(alloc, select.slice())?;
            format!(in alloc; "export {select}")
        }
        Ok(Request::View { feature }) => format!(in alloc; "view {}", feature.as_str()),
        Ok(Request::Done) => String::from_str(alloc, "done"),
        Err(bad) => bad_told(alloc, &bad),
    }
}

/// A cause in short.
pub(crate) fn bad_told(alloc: Global, bad: &BadLine) -> Result<String, AllocError> {
    match bad {
        BadLine::NotJson => String::from_str(alloc, "NotJson"),
        BadLine::NotObject => String::from_str(alloc, "NotObject"),
        BadLine::NoOp => String::from_str(alloc, "NoOp"),
        BadLine::UnknownOp => String::from_str(alloc, "UnknownOp"),
        BadLine::MissingField(field) => format!(in alloc; "MissingField {}", field.key()),
        BadLine::WrongField(field) => format!(in alloc; "WrongField {}", field.key()),
        BadLine::ExtraField(key) => format!(in alloc; "ExtraField {}", key.as_str()),
    }
}

/// Lines, each with what is told of it.
const LINES: [(&[u8], &str); 39] = [
    (
        b"{\"op\":\"add_class\",\"base\":0,\"text\":\"class\"}",
        "0 class class",
    ),
    (
        b"{\"op\":\"remove_class\",\"base\":4294967295,\"class\":\"A\"}",
        "4294967295 no class A",
    ),
    (
        b" { \"op\" : \"add_member\" , \"text\" : \"\" , \"class\" : \"A\" , \"base\" : 1 }\r",
        "1 member A ",
    ),
    (
        b"{\"op\":\"replace_member\",\"base\":2,\"path\":\"A.m~1()\",\"text\":\"t\"}",
        "2 method A m 1 t",
    ),
    (
        b"{\"op\":\"replace_member\",\"base\":2,\"path\":\"A.f\",\"text\":\"t\"}",
        "2 field A f 0 t",
    ),
    (
        b"{\"op\":\"remove_member\",\"base\":3,\"path\":\"A.f\"}",
        "3 no field A f 0",
    ),
    (
        b"{\"op\":\"set_super\",\"base\":4,\"class\":\"A\",\"super\":\"B C\"}",
        "4 super A B C",
    ),
    (
        b"{\"op\":\"set_constructor\",\"base\":5,\"class\":\"A\",\"text\":\"A()\"}",
        "5 new A A()",
    ),
    (
        b"{\"op\":\"set_colors\",\"base\":6,\"path\":\"A.m()#2\",\"colors\":[\"F\",\"!G\",\"F\"]}",
        "6 colors A.m()#2 F,!G,F,",
    ),
    (
        b"{\"op\":\"set_colors\",\"base\":6,\"path\":\"*\",\"colors\":[]}",
        "6 colors * ",
    ),
    (
        b"{\"op\":\"set_model\",\"base\":7,\"text\":\"features A;\"}",
        "7 model features A;",
    ),
    (b"{\"op\":\"refresh\"}", "refresh"),
    (b"{\"op\":\"read\",\"op\":\"entries\"}", "entries"),
    (b"{\"op\":\"read\"}", "read"),
    (b"{\"op\":\"source\"}", "source"),
    (
        b"{\"op\":\"export\",\"select\":[\"A\",\"A\"]}",
        "export A,A,",
    ),
    (
        b"{\"op\":\"view\",\"feature\":\"no feature\"}",
        "view no feature",
    ),
    (b"{\"op\":\"done\"}", "done"),
    (b"\xff", "NotJson"),
    (b"{\"op\":\"read\",\"a\":\"\xff\"}", "NotJson"),
    (b"\r", "NotJson"),
    (b"[]", "NotObject"),
    (b"{}", "NoOp"),
    (b"{\"op\":1,\"x\":2}", "NoOp"),
    (b"{\"op\":\"Read\",\"x\":2}", "UnknownOp"),
    (
        b"{\"op\":\"set_colors\",\"colors\":3,\"x\":1}",
        "MissingField base",
    ),
    (
        b"{\"op\":\"set_colors\",\"base\":null,\"colors\":3,\"x\":1}",
        "MissingField path",
    ),
    (
        b"{\"op\":\"set_colors\",\"base\":1.0,\"path\":\"\",\"colors\":3,\"x\":1}",
        "WrongField base",
    ),
    (
        b"{\"op\":\"set_colors\",\"base\":-0,\"path\":\"\",\"colors\":3,\"x\":1}",
        "WrongField base",
    ),
    (
        b"{\"op\":\"set_colors\",\"base\":4294967296,\"path\":\"\",\"colors\":3,\"x\":1}",
        "WrongField base",
    ),
    (
        b"{\"op\":\"set_colors\",\"base\":0,\"path\":\"A.f~0\",\"colors\":3,\"x\":1}",
        "WrongField path",
    ),
    (
        b"{\"op\":\"set_colors\",\"base\":0,\"path\":\"A.f\",\"colors\":[\"A\",\"! B\"],\"x\":1}",
        "WrongField colors",
    ),
    (
        b"{\"op\":\"set_colors\",\"base\":0,\"path\":\"A.f\",\"colors\":[\"A\",\"this\"]}",
        "WrongField colors",
    ),
    (
        b"{\"op\":\"remove_member\",\"base\":0,\"path\":\"A.new\"}",
        "WrongField path",
    ),
    (
        b"{\"op\":\"remove_member\",\"base\":0,\"path\":\"A.m()#0\"}",
        "WrongField path",
    ),
    (
        b"{\"op\":\"remove_class\",\"base\":0,\"class\":\"class\"}",
        "WrongField class",
    ),
    (
        b"{\"op\":\"export\",\"select\":[\"A\",1]}",
        "WrongField select",
    ),
    (
        b"{\"op\":\"remove_class\",\"base\":0,\"class\":\"A\",\"text\":1,\"path\":2,\"z\":3}",
        "ExtraField path",
    ),
    (
        b"{\"op\":\"refresh\",\"b\":1,\"\":2,\"a\":1}",
        "ExtraField ",
    ),
];

#[test]
fn each_line_is_told_by_its_first_cause(rt: HostRuntime) -> Result<(), Fail> {
    let alloc = rt.alloc();
    for (line, wanted) in LINES {
        let came = told(alloc, line)?;
        assert_eq!(rt; came.as_str(), wanted);
    }
    Ok(())
}

/// The request that is written for the edit that a line asks for; empty where it asks for none.
fn written(alloc: Global, line: &[u8]) -> Result<String, AllocError> {
    match read_request(alloc, line)? {
        Ok(Request::Edit { base, edit: of }) => edit_value(alloc, base, &of)?.to_string(alloc),
        _ => Ok(String::new(alloc)),
    }
}

/// Lines of edits, each with its request as it is written.
const WRITTEN: [(&[u8], &str); 10] = [
    (
        b"{\"text\":\"a\\u0022b\",\"op\":\"add_class\",\"base\":0}",
        "{\"base\":0,\"op\":\"add_class\",\"text\":\"a\\\"b\"}",
    ),
    (
        b"{\"op\":\"remove_class\",\"base\":4294967295,\"class\":\"A\"}",
        "{\"base\":4294967295,\"class\":\"A\",\"op\":\"remove_class\"}",
    ),
    (
        b"{\"op\":\"add_member\",\"text\":\"t\",\"class\":\"A\",\"base\":1}",
        "{\"base\":1,\"class\":\"A\",\"op\":\"add_member\",\"text\":\"t\"}",
    ),
    (
        b"{\"op\":\"replace_member\",\"base\":2,\"path\":\"A.m~1()\",\"text\":\"t\"}",
        "{\"base\":2,\"op\":\"replace_member\",\"path\":\"A.m~1()\",\"text\":\"t\"}",
    ),
    (
        b"{\"op\":\"remove_member\",\"base\":3,\"path\":\"A.f\"}",
        "{\"base\":3,\"op\":\"remove_member\",\"path\":\"A.f\"}",
    ),
    (
        b"{\"op\":\"set_super\",\"base\":4,\"class\":\"A\",\"super\":\"B\"}",
        "{\"base\":4,\"class\":\"A\",\"op\":\"set_super\",\"super\":\"B\"}",
    ),
    (
        b"{\"op\":\"set_constructor\",\"base\":5,\"class\":\"A\",\"text\":\"A()\"}",
        "{\"base\":5,\"class\":\"A\",\"op\":\"set_constructor\",\"text\":\"A()\"}",
    ),
    (
        b"{\"op\":\"set_colors\",\"base\":6,\"path\":\"A.m()#2\",\"colors\":[\"F\",\"!G\"]}",
        "{\"base\":6,\"colors\":[\"F\",\"!G\"],\"op\":\"set_colors\",\"path\":\"A.m()#2\"}",
    ),
    (
        b"{\"op\":\"set_model\",\"base\":7,\"text\":\"features A;\"}",
        "{\"base\":7,\"op\":\"set_model\",\"text\":\"features A;\"}",
    ),
    (b"{\"op\":\"refresh\"}", ""),
];

#[test]
fn an_edit_is_written_as_its_request(rt: HostRuntime) -> Result<(), Fail> {
    let alloc = rt.alloc();
    for (line, wanted) in WRITTEN {
        let came = written(alloc, line)?;
        assert_eq!(rt; came.as_str(), wanted);
    }
    Ok(())
}
