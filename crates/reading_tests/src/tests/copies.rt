//! What is read and copied is the same.

use super::project_of;
use cfj_model::{Expr, Member, MemberName, Name, Project, read_site};
use fj_parser::{Want, parse_class, parse_member};
use std::alloc::{AllocError, Global};
use std::test::Fail;

/// Whether a member is the second method `m` of `A`.
fn is_second_method(member: &MemberName) -> bool {
    match member {
        MemberName::Method(class, method, alt) => {
            class.text() == "A" && method.text() == "m" && *alt == 1
        }
        MemberName::Field(..) => false,
    }
}

#[test]
fn sites_and_members_are_copied(rt: HostRuntime) -> Result<(), Fail> {
    let alloc = rt.alloc();
    let mut agree = false;
    if let Some(site) = read_site(alloc, "A.m~1()#2")? {
        let copy = site.copy(alloc)?;
        agree = format!(in alloc; "{copy}")?.as_str() == "A.m~1()#2";
    }
    assert!(rt; agree);
    let mut named = false;
    if let Some(class) = Name::of(alloc, "A")? {
        if let Some(method) = Name::of(alloc, "m")? {
            let member = MemberName::Method(class, method, 1);
            named = is_second_method(&member.copy(alloc)?);
        }
    }
    assert!(rt; named);
    Ok(())
}

/// The features that marks may name.
const MODEL: &str = "features F, G; constraint F -> !G;";

const CLASS: &str =
    "@F class A extends B { @G C f; A(@G C f) { super(f); @G this.f = f; } @F C m(D x) { return ((D) new E(@G x, this.f)).n(x); } }";

/// How many fields, parameters, methods and arguments of the body a copy of the class in a text has; nothing where the text is no class.
fn parts_of_copy(alloc: Global, project: &Project) -> Result<Option<[usize; 4]>, AllocError> {
    let Ok(class) = parse_class(alloc, CLASS, project.model()) else {
        return Ok(None);
    };
    let copy = class.copy(alloc)?;
    let parameters = copy.ctor.params.slice().len();
    let arguments = match copy.methods.slice().first() {
        Some(method) => arguments_of(&method.body),
        None => 0,
    };
    Ok(Some([
        copy.fields.slice().len(),
        parameters,
        copy.methods.slice().len(),
        arguments,
    ]))
}

/// How many arguments a call or a `new` has.
fn arguments_of(expr: &Expr) -> usize {
    match expr {
        Expr::Call { args, .. } => args.slice().len(),
        Expr::New { args, .. } => args.slice().len(),
        _ => 0,
    }
}

#[test]
fn a_class_is_copied_with_all_its_parts(rt: HostRuntime) -> Result<(), Fail> {
    let alloc = rt.alloc();
    let mut agree = false;
    if let Some(project) = project_of(alloc, MODEL)? {
        if let Some(parts) = parts_of_copy(alloc, &project)? {
            agree = parts == [1, 1, 1, 1];
        }
    }
    assert!(rt; agree);
    Ok(())
}

const ALTERNATIVES: &str =
    "class A extends B { @F C f; D g; @G D f; A() { super(); } @F C m() { return this; } C n() { return this; } @G C m(D x) { return x; } }";

/// The alts of the last field and the last method of a copy of the class in a text; nothing where the text is no class.
fn last_alts_of_copy(alloc: Global, project: &Project) -> Result<Option<[u16; 2]>, AllocError> {
    let Ok(class) = parse_class(alloc, ALTERNATIVES, project.model()) else {
        return Ok(None);
    };
    let copy = class.copy(alloc)?;
    match (copy.fields.slice().last(), copy.methods.slice().last()) {
        (Some(field), Some(method)) => Ok(Some([field.alt, method.alt])),
        _ => Ok(None),
    }
}

#[test]
fn members_of_one_name_are_copied_with_their_alts(rt: HostRuntime) -> Result<(), Fail> {
    let alloc = rt.alloc();
    let mut agree = false;
    if let Some(project) = project_of(alloc, MODEL)? {
        if let Some(alts) = last_alts_of_copy(alloc, &project)? {
            agree = alts == [1, 1];
        }
    }
    assert!(rt; agree);
    Ok(())
}

#[test]
fn a_feature_model_is_copied(rt: HostRuntime) -> Result<(), Fail> {
    let alloc = rt.alloc();
    let mut agree = false;
    if let Some(project) = project_of(alloc, MODEL)? {
        let copy = project.model().copy(alloc)?;
        agree = copy.features.slice().len() == 2 && copy.constraints.slice().len() == 1;
    }
    assert!(rt; agree);
    Ok(())
}

#[test]
fn a_member_is_copied(rt: HostRuntime) -> Result<(), Fail> {
    let alloc = rt.alloc();
    let mut agree = false;
    if let Some(project) = project_of(alloc, MODEL)? {
        if let Ok(member) = parse_member(
            alloc,
            "@F C m(D x) { return x; }",
            project.model(),
            Want::Method,
        ) {
            if let Member::Method(copy) = member.copy(alloc)? {
                agree = copy.name.text() == "m" && copy.alt == 0 && copy.params.slice().len() == 1;
            }
        }
    }
    assert!(rt; agree);
    Ok(())
}

fn name_of(alloc: Global, text: &str) -> Result<Name, Fail> {
    Ok(Name::of(alloc, text)?.ok_or("no name")?)
}

/// A member, spelled out.
fn member_text(alloc: Global, member: &MemberName) -> Result<String, AllocError> {
    match member {
        MemberName::Field(class, field, alt) => {
            format!(in alloc; "field {} of {}, alt {alt}", field.text(), class.text())
        }
        MemberName::Method(class, method, alt) => {
            format!(in alloc; "method {} of {}, alt {alt}", method.text(), class.text())
        }
    }
}

#[test]
fn copies_members(rt: HostRuntime) -> Result<(), Fail> {
    let alloc = rt.alloc();
    let field = MemberName::Field(name_of(alloc, "C")?, name_of(alloc, "f")?, 1);
    let copied = field.copy(alloc)?;
    let text = member_text(alloc, &copied)?;
    assert!(rt; text.as_str() == "field f of C, alt 1");
    let method = MemberName::Method(name_of(alloc, "D")?, name_of(alloc, "m")?, 0);
    let copied = method.copy(alloc)?;
    let text = member_text(alloc, &copied)?;
    assert!(rt; text.as_str() == "method m of D, alt 0");
    Ok(())
}
