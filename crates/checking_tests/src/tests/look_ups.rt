//! Look-ups that go through all classes.

use cfj_model::{Class, Field, Method, Project};
use std::alloc::{AllocError, Global};

pub fn declared<'a>(project: &'a Project, name: &str) -> Option<&'a Class> {
    for place in 0..project.class_count() {
        let class = project.class(place);
        if class.name.text() == name {
            return Some(class);
        }
    }
    None
}

pub fn is_known(project: &Project, name: &str) -> bool {
    name == "Object" || declared(project, name).is_some()
}

/// The classes from this one upwards, up to one that isn't declared or that was met.
pub fn chain<'a>(
    alloc: Global,
    project: &'a Project,
    name: &'a str,
) -> Result<Vec<&'a Class>, AllocError> {
    let mut found: Vec<&'a Class> = Vec::new(alloc);
    let mut at = name;
    for _ in 0..project.class_count() {
        let Some(class) = declared(project, at) else {
            return Ok(found);
        };
        if found.iter().any(|met| met.name.text() == at) {
            return Ok(found);
        }
        found.push(class)?;
        at = class.parent.text();
    }
    Ok(found)
}

pub fn is_subtype(
    alloc: Global,
    project: &Project,
    class: &str,
    above: &str,
) -> Result<bool, AllocError> {
    let chain = chain(alloc, project, class)?;
    Ok(class == above || chain.iter().any(|met| met.parent.text() == above))
}

pub fn fields<'a>(
    alloc: Global,
    project: &'a Project,
    name: &'a str,
) -> Result<Vec<&'a Field>, AllocError> {
    let chain = chain(alloc, project, name)?;
    let mut found: Vec<&'a Field> = Vec::new(alloc);
    for class in chain.iter().rev() {
        for field in class.fields.slice() {
            found.push(field)?;
        }
    }
    Ok(found)
}

pub fn method_of<'a>(class: &'a Class, name: &str) -> Option<&'a Method> {
    class
        .methods
        .slice()
        .iter()
        .find(|method| method.name.text() == name)
}

pub fn nearest_method<'a>(chain: &[&'a Class], name: &str) -> Option<&'a Method> {
    for class in chain {
        let found = method_of(class, name);
        if found.is_some() {
            return found;
        }
    }
    None
}

pub fn nearest_field<'a>(chain: &[&'a Class], name: &str) -> Option<&'a Field> {
    for class in chain {
        let found = class
            .fields
            .slice()
            .iter()
            .find(|field| field.name.text() == name);
        if found.is_some() {
            return found;
        }
    }
    None
}
