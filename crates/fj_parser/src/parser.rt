//! The text of a project.

ghost use Rattle.std.specs.Prelude.{◌≡◌, ℕ, ◌≤◌, length, IfOk, Err};
ghost use Rattle.cfj_model.specs.Faults.{IsFirstFault};
ghost use Rattle.cfj_model.specs.Languages.{IsTextOf, projects};
ghost use Rattle.cfj_model.specs.ProductLines.{ProductLine};
ghost use Rattle.fj_parser.specs.Answers.{IsReadAs, IsRefusedAs};
ghost use Rattle.fj_machine.specs.Machine.{of_parts};

use crate::goal::Goal;
use crate::part::Part;
use crate::reading::read_text;
use crate::results::into_parts;
use cfj_model::{Class, FaultKind, FeatureModel, ParseFault, Project};
use std::alloc::Global;
use std::str;
use std::sync::Arc;

/// The feature model and the classes of a text.
fn read_parts(alloc: Global, text: &str) -> Result<(FeatureModel, Vec<Class>), ParseFault>
    ensures read { IfOk result (λ parts. IsTextOf projects text.now (of_parts parts.0.format parts.0.features parts.0.constraints parts.1.items)) }
    ensures fault { (at : ℕ) (kind : _) → result ≡ Err (ParseFault.At at kind) → IsFirstFault projects text.now at kind }
{
    let machine = read_text(alloc, Part::alone(Goal::Project), text)?;
    Ok(into_parts(alloc, machine))
}

fn read_project(alloc: Global, text: &[u8]) -> Result<Project, ParseFault>
    ensures read { IfOk result (λ project. IsTextOf projects text.now project) }
    ensures fault { (at : ℕ) (kind : _) → result ≡ Err (ParseFault.At at kind) → IsFirstFault projects text.now at kind }
{
    let text = match str::from_utf8(text) {
        Ok(text) => text,
        Err(error) => {
            return Err(ParseFault::At {
                at: error.valid_up_to(),
                kind: FaultKind::NotUtf8,
            });
        }
    };
    let (model, classes) = read_parts(alloc, text)?;
    let model = Arc::new(alloc, model)?;
    Ok(Project::of(model, classes)?)
}

/// The product line that a text stands for, numbered, or the text's first fault.
pub fn parse_project(alloc: Global, text: &[u8]) -> Result<Project, ParseFault>
    requires { length text.now ≤ 4194304 }
    // What is read is the value of a text of the grammar, and every text of the grammar is read.
    ensures read { IfOk result (λ project. IsTextOf projects text.now project) }
    ensures only { (line : ProductLine) → IsTextOf projects text.now line → IsReadAs line result }
    // A fault is the first one, and every first fault is told.
    ensures fault { (at : ℕ) (kind : _) → result ≡ Err (ParseFault.At at kind) → IsFirstFault projects text.now at kind }
    ensures first { (at : ℕ) (kind : _) → IsFirstFault projects text.now at kind → IsRefusedAs at kind result }
{
    read_project(alloc, text)
}
