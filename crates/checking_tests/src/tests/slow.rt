//! A slow walk over the pairs of a project.

use super::look_ups::{chain, fields, is_known, is_subtype, nearest_method};
use super::slow_bodies::Body;
use cfj_model::{Class, Field, Method, Project};
use std::alloc::{AllocError, Global};

/// The first pair of a site and a rule that breaks, found by trying each pair in order, by look-ups that go through all classes.
pub fn slowly_told(alloc: Global, project: &Project) -> Result<String, AllocError> {
    for place in 0..project.class_count() {
        let found = class_break(alloc, project, project.class(place))?;
        if let Some(line) = found {
            return Ok(line);
        }
    }
    String::from_str(alloc, "none")
}

/// The first of these rules that breaks, with its site.
fn first(alloc: Global, site: &str, rules: &[(&str, bool)]) -> Result<Option<String>, AllocError> {
    for (rule, breaks) in rules {
        if *breaks {
            return Ok(Some(format!(in alloc; "{site} {rule}")?));
        }
    }
    Ok(None)
}

/// The path of a member, without what tells methods from fields.
fn member_path(alloc: Global, owner: &str, name: &str, alt: u16) -> Result<String, AllocError> {
    if alt == 0 {
        return format!(in alloc; "{owner}.{name}");
    }
    format!(in alloc; "{owner}.{name}~{alt}")
}

fn class_break(
    alloc: Global,
    project: &Project,
    class: &Class,
) -> Result<Option<String>, AllocError> {
    let name = class.name.text();
    let above = chain(alloc, project, name)?;
    let own = [
        ("K1", !is_known(project, class.parent.text())),
        ("K2", above.iter().any(|met| met.parent.text() == name)),
    ];
    let mut found = first(alloc, name, &own)?;
    for (place, field) in class.fields.slice().iter().enumerate() {
        if found.is_none() {
            found = field_break(alloc, project, class, place, field, above.as_slice())?;
        }
    }
    if found.is_none() {
        found = ctor_break(alloc, project, class)?;
    }
    for (place, method) in class.methods.slice().iter().enumerate() {
        if found.is_none() {
            found = method_break(alloc, project, class, place, method, above.as_slice())?;
        }
    }
    Ok(found)
}

fn field_break(
    alloc: Global,
    project: &Project,
    class: &Class,
    place: usize,
    field: &Field,
    above: &[&Class],
) -> Result<Option<String>, AllocError> {
    let (owner, name) = (class.name.text(), field.name.text());
    let mut hides = false;
    for met in above {
        let has = met
            .fields
            .slice()
            .iter()
            .any(|other| other.name.text() == name);
        hides = hides || (has && met.name.text() != owner);
    }
    let mut before = class.fields.slice().iter().take(place);
    let again = before.any(|earlier| earlier.name.text() == name);
    let site = member_path(alloc, owner, name, field.alt)?;
    let rules = [
        ("K1", !is_known(project, field.of.text())),
        ("K3", hides),
        ("K9", again),
    ];
    first(alloc, site.as_str(), &rules)
}

/// Whether two lists of texts are the same.
fn are_same(left: &[&str], right: &[&str]) -> bool {
    left == right
}

fn ctor_break(
    alloc: Global,
    project: &Project,
    class: &Class,
) -> Result<Option<String>, AllocError> {
    let name = class.name.text();
    let mut wanted: Vec<&str> = Vec::new(alloc);
    for field in fields(alloc, project, name)?.iter() {
        wanted.push(field.of.text())?;
        wanted.push(field.name.text())?;
    }
    let mut given: Vec<&str> = Vec::new(alloc);
    for param in class.ctor.params.slice() {
        given.push(param.of.text())?;
        given.push(param.name.text())?;
    }
    let mut above: Vec<&str> = Vec::new(alloc);
    for field in fields(alloc, project, class.parent.text())?.iter() {
        above.push(field.name.text())?;
    }
    let mut sent: Vec<&str> = Vec::new(alloc);
    for item in class.ctor.sends.slice() {
        sent.push(item.name.text())?;
    }
    let mut own: Vec<&str> = Vec::new(alloc);
    for field in class.fields.slice() {
        own.push(field.name.text())?;
    }
    let mut assigned: Vec<&str> = Vec::new(alloc);
    for item in class.ctor.assigns.slice() {
        assigned.push(item.name.text())?;
    }
    let rules = [
        ("K4", !are_same(given.as_slice(), wanted.as_slice())),
        ("K5", !are_same(sent.as_slice(), above.as_slice())),
        ("K6", !are_same(assigned.as_slice(), own.as_slice())),
    ];
    let site = format!(in alloc; "{name}.new")?;
    let mut found = first(alloc, site.as_str(), &rules)?;
    for param in class.ctor.params.slice() {
        if found.is_none() {
            let slot = param.slot;
            let site = format!(in alloc; "{name}.new({slot})")?;
            found = first(
                alloc,
                site.as_str(),
                &[("K1", !is_known(project, param.of.text()))],
            )?;
        }
    }
    Ok(found)
}

/// Whether a method has the types of another.
fn has_types_of(method: &Method, other: &Method) -> bool {
    let types = method.params.slice().iter().map(|param| param.of.text());
    let others = other.params.slice().iter().map(|param| param.of.text());
    method.result.text() == other.result.text() && types.eq(others)
}

fn method_break(
    alloc: Global,
    project: &Project,
    class: &Class,
    place: usize,
    method: &Method,
    above: &[&Class],
) -> Result<Option<String>, AllocError> {
    let (owner, name) = (class.name.text(), method.name.text());
    let mut ancestors: Vec<&Class> = Vec::new(alloc);
    for met in above {
        if met.name.text() != owner {
            ancestors.push(*met)?;
        }
    }
    let overridden = match nearest_method(ancestors.as_slice(), name) {
        Some(other) => !has_types_of(method, other),
        None => false,
    };
    let body = Body::of(alloc, project, class, method)?;
    let no_result = match body.type_at(body.root) {
        Some(found) => !is_subtype(alloc, project, found, method.result.text())?,
        None => false,
    };
    let mut before = class.methods.slice().iter().take(place);
    let again = before.any(|earlier| earlier.name.text() == name);
    let rules = [
        ("K1", !is_known(project, method.result.text())),
        ("K7", overridden),
        ("K8", no_result),
        ("K9", again),
    ];
    let path = member_path(alloc, owner, name, method.alt)?;
    let site = format!(in alloc; "{path}()")?;
    let mut found = first(alloc, site.as_str(), &rules)?;
    for param in method.params.slice() {
        if found.is_none() {
            let slot = param.slot;
            let site = format!(in alloc; "{path}({slot})")?;
            found = first(
                alloc,
                site.as_str(),
                &[("K1", !is_known(project, param.of.text()))],
            )?;
        }
    }
    for slot in 0..body.nodes.len() {
        if found.is_none() {
            let site = format!(in alloc; "{path}()#{slot}")?;
            let rules = body.rules_at(alloc, project, slot)?;
            found = first(alloc, site.as_str(), rules.as_slice())?;
        }
    }
    Ok(found)
}
