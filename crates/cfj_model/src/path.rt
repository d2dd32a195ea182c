//! Paths: the texts of sites, read back.
//!
//! A text is cut at its marks into the one site that could have it, whose own text is then compared with it.
ghost use Rattle.std.specs.Prelude.{◌≡◌, ◌<◌, None, Some, IfOk, IfSome, IfNone, MatchOption};
ghost use Rattle.cfj_model.specs.Sites.{site_text, IsPath, IsPathName};
ghost use Rattle.cfj_model.specs.Paths as spec;
ghost use Rattle.cfj_model.specs.declared.site.Site.{Site as SeenSite};

use crate::site::Site;
use cfj_words::{Name, is_identifier};
use std::alloc::{AllocError, Global};

/// The site that a text names; `None` exactly where the text is no path.
pub fn read_site(alloc: Global, text: &str) -> Result<Option<Site>, AllocError>
    ensures found { IfOk result (λ found. IfSome found (λ site. (site_text site ≡ text.now) × IsPath site)) }
    ensures none { IfOk result (λ found. IfNone found ((site : SeenSite) → IsPath site → site_text site ≡ text.now → ⊥)) }
{
    let Some(site) = candidate(alloc, text)? else {
        return Ok(None);
    };
    let printed = format!(in alloc; "{site}")?;
    Ok((printed.as_str() == text).then_some(site))
}

/// The only site that can have this text.
fn candidate(alloc: Global, text: &str) -> Result<Option<Site>, AllocError>
    ensures value { IfOk result (λ found. found ≡ spec.candidate text.now) }
    ensures path { IfOk result (λ found. IfSome found (λ site. IsPath site)) }
{
    let Some((class, part)) = cut(text, '.') else {
        if text == "*" {
            return Ok(Some(Site::Model));
        }
        return Ok(read_name(alloc, text)?.map(Site::Class));
    };
    let Some(class) = read_name(alloc, class)? else {
        return Ok(None);
    };
    match cut(part, '(') {
        None => bare(alloc, class, part),
        Some((head, rest)) => bracketed(alloc, class, head, rest),
    }
}

/// What a part of a class without brackets names.
fn bare(alloc: Global, class: Name, part: &str) -> Result<Option<Site>, AllocError>
    requires { IsPathName class }
    ensures value { IfOk result (λ found. found ≡ spec.bare_of class part.now) }
    ensures path { IfOk result (λ found. IfSome found (λ site. IsPath site)) }
{
    if part == "new" {
        return Ok(Some(Site::Ctor(class)));
    }
    let Some((name, alt)) = split_member(part) else {
        return Ok(None);
    };
    let Some(field) = read_name(alloc, name)? else {
        return Ok(None);
    };
    Ok(Some(Site::Field(class, field, alt)))
}

/// What a part of a class with brackets names: what stands before them and from their opening on.
fn bracketed(alloc: Global, class: Name, head: &str, rest: &str) -> Result<Option<Site>, AllocError>
    requires { IsPathName class }
    ensures value { IfOk result (λ found. found ≡ spec.bracketed_of class head.now (spec.cut 41 rest.now)) }
    ensures path { IfOk result (λ found. IfSome found (λ site. IsPath site)) }
{
    let Some((inside, behind)) = cut(rest, ')') else {
        return Ok(None);
    };
    if head == "new" {
        return Ok(read_number(inside).map(|slot| Site::CtorParam(class, slot)));
    }
    if head == "new.super" {
        return Ok(read_number(inside).map(|slot| Site::SuperArg(class, slot)));
    }
    if head == "new.this" {
        return Ok(read_number(inside).map(|slot| Site::Assign(class, slot)));
    }
    in_method(alloc, class, head, inside, behind)
}

/// What stands in a method or is it, by its name with its alt, the text in its brackets and the one behind them.
fn in_method(
    alloc: Global,
    class: Name,
    head: &str,
    inside: &str,
    behind: &str,
) -> Result<Option<Site>, AllocError>
    requires { IsPathName class }
    ensures value { IfOk result (λ found. found ≡ spec.method_of class (spec.member_of head.now) inside.now behind.now) }
    ensures path { IfOk result (λ found. IfSome found (λ site. IsPath site)) }
{
    let Some((name, alt)) = split_member(head) else {
        return Ok(None);
    };
    let Some(method) = read_name(alloc, name)? else {
        return Ok(None);
    };
    if !inside.is_empty() {
        return Ok(read_number(inside).map(|slot| Site::Param(class, method, alt, slot)));
    }
    let Some((_, digits)) = cut(behind, '#') else {
        return Ok(Some(Site::Method(class, method, alt)));
    };
    Ok(read_number(digits).map(|slot| Site::Node(class, method, alt, slot)))
}

/// A member's name and its alt.
fn split_member(text: &str) -> Option<(&str, u16)>
    ensures { MatchOption result (spec.member_of text.now ≡ None) (λ member. spec.IsMember text.now member.0.now member.1) }
{
    let Some((name, digits)) = cut(text, '~') else {
        return Some((text, 0));
    };
    Some((name, read_number(digits)?))
}

/// What stands before the first of a mark and what stands behind it.
fn cut(text: &str, mark: char) -> Option<(&str, &str)>
    requires { mark < 128 }
    ensures { MatchOption result (spec.cut mark text.now ≡ None) (λ parts. spec.IsCut mark text.now parts.0.now parts.1.now) }
{
    text.split_once(mark)
}

fn read_name(alloc: Global, text: &str) -> Result<Option<Name>, AllocError>
    ensures value { IfOk result (λ found. found ≡ spec.name_of text.now) }
    ensures path { IfOk result (λ found. IfSome found (λ name. IsPathName name)) }
{
    // `this` is a `Name` and no identifier.
    if !is_identifier(text) {
        return Ok(None);
    }
    Name::of(alloc, text)
}

fn read_number(text: &str) -> Option<u16>
    ensures { result ≡ spec.number_of text.now }
{
    // A sign would be taken.
    if text.starts_with('+') {
        return None;
    }
    text.parse().ok()
}
