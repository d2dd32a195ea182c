//! Edits as the objects that ask for them.

ghost use Rattle.std.specs.Prelude.{◌≡◌, ◌<◌, ◌^◌, ℕ, IfOk, codes, string_bytes};
ghost use Rattle.cfj_model.specs.Sites.{member_site, site_text};
ghost use Rattle.cfj_model.specs.declared.edit.Edit.{Edit};
ghost use Rattle.serde_json.specs.Data.{array, string, number, unsigned, object, member, no_members};
ghost use Rattle.serde_json.specs.View.{view};
ghost use Rattle.session_requests.specs.Fields.{mark_text, text_items};
ghost use Rattle.session_requests.specs.Requests.{IsRequest};
ghost use Rattle.session_requests.specs.Written.{IsAskable, edit_data, text_member};
ghost use Rattle.session_requests.specs.declared.request.Request.TheVariants as request;

use cfj_model::{Edit, MemberName, Name, Signed, Site, SiteRef};
use serde_json::{Value, json};
use std::alloc::{AllocError, Global};

/// The object of the request for an edit of a version: what `request_of` reads as that request.
///
/// # Errors
///
/// There is no memory for it.
pub fn edit_value(alloc: Global, base: u32, edit: &Edit) -> Result<Value, AllocError>
    ensures { IfOk result (λ value. view value ≡ edit_data base edit.now) }
{
    match edit {
        Edit::AddClass { text } => with_text(alloc, base, "add_class", text.as_str()),
        Edit::RemoveClass { class } => remove_class(alloc, base, class),
        Edit::AddMember { class, text } => {
            with_class(alloc, base, class, "add_member", text.as_str())
        }
        Edit::ReplaceMember { member, text } => {
            replace_member(alloc, base, member, text.as_str())
        }
        Edit::RemoveMember { member } => remove_member(alloc, base, member),
        Edit::SetSuper { class, text } => set_super(alloc, base, class, text.as_str()),
        Edit::SetConstructor { class, text } => {
            with_class(alloc, base, class, "set_constructor", text.as_str())
        }
        Edit::SetColors { site, marks } => set_colors(alloc, base, site, marks.slice()),
        Edit::SetModel { text } => with_text(alloc, base, "set_model", text.as_str()),
    }
}

/// The object that is written for an edit is the request that asks for it.
pub fn written_is_asked()
    ensures { (base : ℕ) (edit : Edit) → base < 2 ^ 32 → IsAskable edit → IsRequest (edit_data base edit) (request.Edit base edit) }
{}

fn with_text(alloc: Global, base: u32, op: &str, text: &str) -> Result<Value, AllocError>
    ensures { IfOk result (λ value. view value
        ≡ object (member (codes "base") (number (unsigned base)) (text_member (codes "op") op.now (text_member (codes "text") text.now no_members)))) }
{
    json!(in alloc; {"base": base, "op": op, "text": text})
}

fn with_class(
    alloc: Global,
    base: u32,
    class: &Name,
    op: &str,
    text: &str,
) -> Result<Value, AllocError>
    ensures { IfOk result (λ value. view value
        ≡ object (member (codes "base") (number (unsigned base)) (text_member (codes "class") class.now
        (text_member (codes "op") op.now (text_member (codes "text") text.now no_members))))) }
{
    json!(in alloc; {"base": base, "class": class.text(), "op": op, "text": text})
}

fn remove_class(alloc: Global, base: u32, class: &Name) -> Result<Value, AllocError>
    ensures { IfOk result (λ value. view value
        ≡ object (member (codes "base") (number (unsigned base)) (text_member (codes "class") class.now
        (text_member (codes "op") (codes "remove_class") no_members)))) }
{
    json!(in alloc; {"base": base, "class": class.text(), "op": "remove_class"})
}

fn set_super(alloc: Global, base: u32, class: &Name, text: &str) -> Result<Value, AllocError>
    ensures { IfOk result (λ value. view value
        ≡ object (member (codes "base") (number (unsigned base)) (text_member (codes "class") class.now
        (text_member (codes "op") (codes "set_super") (text_member (codes "super") text.now no_members))))) }
{
    json!(in alloc; {"base": base, "class": class.text(), "op": "set_super", "super": text})
}

fn replace_member(
    alloc: Global,
    base: u32,
    old: &MemberName,
    text: &str,
) -> Result<Value, AllocError>
    ensures { IfOk result (λ value. view value
        ≡ object (member (codes "base") (number (unsigned base)) (text_member (codes "op") (codes "replace_member")
        (text_member (codes "path") (site_text (member_site old.now)) (text_member (codes "text") text.now no_members))))) }
{
    let path = member_path(alloc, old)?;
    json!(in alloc; {"base": base, "op": "replace_member", "path": path, "text": text})
}

fn remove_member(alloc: Global, base: u32, old: &MemberName) -> Result<Value, AllocError>
    ensures { IfOk result (λ value. view value
        ≡ object (member (codes "base") (number (unsigned base)) (text_member (codes "op") (codes "remove_member")
        (text_member (codes "path") (site_text (member_site old.now)) no_members)))) }
{
    let path = member_path(alloc, old)?;
    json!(in alloc; {"base": base, "op": "remove_member", "path": path})
}

/// The path of a member.
fn member_path(alloc: Global, old: &MemberName) -> Result<String, AllocError>
    ensures { IfOk result (λ path. string_bytes path ≡ site_text (member_site old.now)) }
{
    let site = match old {
        MemberName::Field(class, name, alt) => SiteRef::Field(class, name, *alt),
        MemberName::Method(class, name, alt) => SiteRef::Method(class, name, *alt),
    };
    format!(in alloc; "{site}")
}

fn set_colors(alloc: Global, base: u32, site: &Site, marks: &[Signed]) -> Result<Value, AllocError>
    ensures { IfOk result (λ value. view value
        ≡ object (member (codes "base") (number (unsigned base)) (member (codes "colors") (array (text_items mark_text marks.now))
        (text_member (codes "op") (codes "set_colors") (text_member (codes "path") (site_text site.now) no_members))))) }
{
    let path = format!(in alloc; "{site}")?;
    let colors = marks_value(alloc, marks)?;
    json!(in alloc; {"base": base, "colors": colors, "op": "set_colors", "path": path})
}

/// The texts of marks as an array.
fn marks_value(alloc: Global, marks: &[Signed]) -> Result<Value, AllocError>
    ensures { IfOk result (λ value. view value ≡ array (text_items mark_text marks.now)) }
{
    let mut items = Vec::new(alloc);
    'marks: for mark in marks {
        items.push(mark_value(alloc, mark)?)?;
    }
    Ok(Value::Array(items))
}

/// The text of a mark.
fn mark_value(alloc: Global, mark: &Signed) -> Result<Value, AllocError>
    ensures { IfOk result (λ value. view value ≡ string (mark_text mark.now)) }
{
    if !mark.off {
        return Value::try_from_str(alloc, mark.name.text());
    }
    Ok(Value::from(format!(in alloc; "!{}", mark.name.text())?))
}
