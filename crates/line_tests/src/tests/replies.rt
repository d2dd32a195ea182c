//! Lines of replies.

use cfj_model::{FaultKind, Items, LimitKind, Name, Text, read_site};
use session_replies::{EditReply, NameReason, Reason, Reply, VerdictWord, reply_text};
use session_requests::{BadLine, Field};
use std::alloc::{AllocError, Global};
use std::mem;
use std::test::Fail;

/// Whether the line of a reply is this one.
fn has_line(alloc: Global, reply: Reply, wanted: &str) -> Result<bool, AllocError> {
    let line = reply_text(alloc, &reply);
    // A reply is dropped as a whole.
    mem::drop(reply);
    Ok(line?.as_str() == wanted)
}

fn text(alloc: Global, text: &str) -> Result<Text, AllocError> {
    Ok(Text::of(String::from_str(alloc, text)?))
}

/// A refusal of the second edit for the node with this path, if it is one.
fn about_site(alloc: Global, path: &str, wanted: &str) -> Result<bool, AllocError> {
    match read_site(alloc, path)? {
        Some(site) => {
            let reason = Reason::InUse(site);
            has_line(
                alloc,
                Reply::Edit(EditReply::Refused { place: 7, reason }),
                wanted,
            )
        }
        None => Ok(false),
    }
}

/// A refusal for this name, if it is one.
fn about_name(alloc: Global, name: &str, wanted: &str) -> Result<bool, AllocError> {
    match Name::of(alloc, name)? {
        Some(name) => {
            let kind = FaultKind::NoFeature(name);
            let reason = Reason::BadText { at: 8, kind };
            has_line(
                alloc,
                Reply::Edit(EditReply::Refused { place: 10, reason }),
                wanted,
            )
        }
        None => Ok(false),
    }
}

#[test]
fn edits_are_answered(rt: HostRuntime) -> Result<(), Fail> {
    let alloc = rt.alloc();
    let accepted = Reply::Edit(EditReply::Accepted {
        place: 6,
        version: 1,
    });
    assert!(rt;
        has_line(
            alloc,
            accepted,
            "{\"place\":6,\"reply\":\"accepted\",\"version\":1}\n"
        )?
    );
    assert!(rt;
        about_site(
            alloc,
            "A.l",
            "{\"path\":\"A.l\",\"place\":7,\"reason\":\"InUse\",\"reply\":\"refused\"}\n"
        )?
    );
    assert!(rt;
        about_name(
            alloc,
            "Net",
            "{\"at\":8,\"fault\":\"NoFeature Net\",\"place\":10,\"reason\":\"BadText\",\"reply\":\"refused\"}\n"
        )?
    );
    let reason = Reason::NoVersion { now: 0 };
    let refused = Reply::Edit(EditReply::Refused { place: 9, reason });
    assert!(rt;
        has_line(
            alloc,
            refused,
            "{\"now\":0,\"place\":9,\"reason\":\"NoVersion\",\"reply\":\"refused\"}\n"
        )?
    );
    let reason = Reason::Limit(LimitKind::Methods);
    let refused = Reply::Edit(EditReply::Refused { place: 4, reason });
    assert!(rt;
        has_line(
            alloc,
            refused,
            "{\"limit\":\"Methods\",\"place\":4,\"reason\":\"Limit\",\"reply\":\"refused\"}\n"
        )?
    );
    Ok(())
}

#[test]
fn editions_are_told(rt: HostRuntime) -> Result<(), Fail> {
    let alloc = rt.alloc();
    let read = Reply::Read {
        broken: 2,
        edition: 3,
        undecided: 0,
        verdict: VerdictWord::Undecided,
        version: 5,
    };
    assert!(rt;
        has_line(
            alloc,
            read,
            "{\"broken\":2,\"edition\":3,\"reply\":\"read\",\"undecided\":0,\"verdict\":\"undecided\",\"version\":5}\n"
        )?
    );
    let mut lines = Vec::new(alloc);
    lines.push(text(alloc, "A.l [Log]")?)?;
    lines.push(text(alloc, "\"")?)?;
    let lines = Items::of(lines);
    let view = Reply::View {
        edition: 0,
        lines,
        version: 0,
    };
    assert!(rt;
        has_line(
            alloc,
            view,
            "{\"edition\":0,\"lines\":[\"A.l [Log]\",\"\\\"\"],\"reply\":\"view\",\"version\":0}\n"
        )?
    );
    let variant = Reply::Variant {
        bytes: 124,
        edition: 0,
        version: 0,
    };
    assert!(rt;
        has_line(
            alloc,
            variant,
            "{\"bytes\":124,\"edition\":0,\"reply\":\"variant\",\"version\":0}\n"
        )?
    );
    let invalid = Reply::Invalid {
        constraint: 1,
        edition: 0,
        version: 0,
    };
    assert!(rt;
        has_line(
            alloc,
            invalid,
            "{\"constraint\":1,\"edition\":0,\"reply\":\"invalid\",\"version\":0}\n"
        )?
    );
    let name = text(alloc, "Foo")?;
    let names = Reply::BadNames {
        edition: 0,
        name,
        reason: NameReason::Twice,
        version: 0,
    };
    assert!(rt;
        has_line(
            alloc,
            names,
            "{\"edition\":0,\"name\":\"Foo\",\"reason\":\"Twice\",\"reply\":\"badnames\",\"version\":0}\n"
        )?
    );
    Ok(())
}

#[test]
fn lines_are_answered(rt: HostRuntime) -> Result<(), Fail> {
    let alloc = rt.alloc();
    let published = Reply::Published {
        edition: 1,
        version: 1,
    };
    assert!(rt;
        has_line(
            alloc,
            published,
            "{\"edition\":1,\"reply\":\"published\",\"version\":1}\n"
        )?
    );
    assert!(rt; has_line(alloc, Reply::Full, "{\"reply\":\"full\"}\n")?);
    assert!(rt; has_line(alloc, Reply::Done, "{\"reply\":\"done\"}\n")?);
    let bad = Reply::BadLine(BadLine::NotJson);
    assert!(rt; has_line(alloc, bad, "{\"kind\":\"NotJson\",\"reply\":\"badline\"}\n")?);
    let bad = Reply::BadLine(BadLine::WrongField(Field::Member));
    assert!(rt;
        has_line(
            alloc,
            bad,
            "{\"kind\":\"WrongField\",\"name\":\"path\",\"reply\":\"badline\"}\n"
        )?
    );
    Ok(())
}
