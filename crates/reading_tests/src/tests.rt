//! What the tests share.

mod copies;
mod edge;
mod printing;
mod slow_reading;

use cfj_model::Project;
use fj_parser::parse_project;
use std::alloc::{AllocError, Global};

/// The project that a text stands for; nothing where it stands for none, or is too long.
fn project_of(alloc: Global, text: &str) -> Result<Option<Project>, AllocError> {
    if text.len() > 4_194_304 {
        return Ok(None);
    }
    Ok(parse_project(alloc, text.as_bytes()).ok())
}
