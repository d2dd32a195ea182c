//! Expressions by themselves, over the classes of the sound project.

use super::SOUND;
use cfj_model::{Expr, Project};
use class_table::ClassTable;
use fj_parser::{parse_expr, parse_project};
use plain_fj::judge_alone;
use std::alloc::{AllocError, Global};
use std::test::Fail;

/// Expressions, each with its type and the rules that break in it, with their nodes' slots.
const CASES: [(&str, &str); 13] = [
    ("new P()", "P"),
    ("new Q(new P()).get()", "P"),
    ("(R) new Q(new P())", "R"),
    ("x", "none E1#0"),
    ("this", "none E1#0"),
    ("this.f", "none E1#0"),
    ("new Q(new P()).g", "none E2#2"),
    ("new P().id(x)", "none E1#2"),
    ("new P().id()", "none E4#1"),
    ("new Q()", "none E6#0"),
    ("new Q(new Object()).f", "none E7#1"),
    (
        "new Q(new P()).with(new Object(), new Object())",
        "none E5#3 E5#4",
    ),
    ("(M) x", "none K1#0 E1#1"),
];

/// The type of an expression and the rules that break in it, with their nodes' slots.
fn told(alloc: Global, project: &Project, expr: &Expr) -> Result<String, AllocError> {
    let table = ClassTable::of(alloc, project)?;
    let judged = judge_alone(alloc, &table, expr)?;
    let mut told = String::new(alloc);
    told.push_str(match judged.of {
        Some(class) => class.text(),
        None => "none",
    })?;
    for found in judged.breaks.iter() {
        let part = format!(in alloc; " {:?}#{}", found.rule, found.slot)?;
        told.push_str(part.as_str())?;
    }
    Ok(told)
}

/// The same of a text; nothing where it stands for no expression.
fn told_of(alloc: Global, text: &str) -> Result<Option<String>, AllocError> {
    let Ok(project) = parse_project(alloc, SOUND.as_bytes()) else {
        return Ok(None);
    };
    let Ok(expr) = parse_expr(alloc, text) else {
        return Ok(None);
    };
    Ok(Some(told(alloc, &project, &expr)?))
}

#[test]
fn an_expression_is_judged_by_itself(rt: HostRuntime) -> Result<(), Fail> {
    let alloc = rt.alloc();
    for (text, wanted) in CASES {
        let found = told_of(alloc, text)?;
        let found = found.as_ref().map(|found| found.as_str());
        assert!(rt; found == Some(wanted), "of {text}");
    }
    Ok(())
}
