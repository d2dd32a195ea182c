//! The command `export`.
ghost use Rattle.std.specs.Prelude.{◌≡◌, ℕ, List, map, Some, IfOk, IfErr, string_bytes};
ghost use Rattle.cide_io.specs.Faults.{Rose};
ghost use Rattle.cide_io.specs.Known.{Known};
ghost use Rattle.cide_io.specs.Changes.{Gains, OnlyReads};
ghost use Rattle.command_words.specs.Asked.{Asked};
ghost use Rattle.feature_model.specs.NamedSelections.{IsSpelled, IsFirstBad};
ghost use Rattle.cfj_logic.specs.Validity.{IsFirstFalse};
ghost use Rattle.cide_tool.specs.Lines.{bad_name, invalid_line, names_line};
ghost use Rattle.cide_tool.specs.NamedParts.{named_parts};
ghost use Rattle.cide_tool.specs.ProjectTexts.{StandsFor};
ghost use Rattle.cide_tool.specs.Refusals.{IsAnswer, IsRefusal};

use crate::names::read_names;
use crate::project::read_project;
use crate::refusal::Refusal;
use crate::words::parts;
use cfj_model::{Project, Selection};
use cide_io::{Room, Sink};
use feature_model::NameFault;
use std::alloc::{AllocError, Global};
use variant_export::{ExportFault, export as export_variant};

/// The line that tells the first bad name.
fn names_line(alloc: Global, parts: &[&str], fault: NameFault) -> Result<String, AllocError>
    ensures { IfOk result (λ line. string_bytes line ≡ names_line (map (λ part. part.now) parts.now) fault) }
{
    match fault {
        NameFault::NoFeature(at) => {
            let name = name_at(parts, at);
            format!(in alloc; "refused names: NoFeature {name}\n")
        }
        NameFault::Twice(at) => {
            let name = name_at(parts, at);
            format!(in alloc; "refused names: Twice {name}\n")
        }
    }
}

fn name_at<'a>(parts: &[&'a str], at: usize) -> &'a str
    ensures { result.now ≡ bad_name (map (λ part. part.now) parts.now) at }
{
    match parts.get(at) {
        Some(part) => *part,
        None => "",
    }
}

/// The refusal of names of which one is bad. Without memory for the line there is none to say which.
fn bad_name(alloc: Global, parts: &[&str], fault: NameFault) -> Refusal
    ensures { (inputs : List ℕ → Known) (name names : List ℕ) (line : _) → StandsFor (inputs name) line
        → map (λ part. part.now) parts.now ≡ named_parts names
        → IsFirstBad line.model.features (named_parts names) fault
        → IsRefusal inputs ⊥ (Some (Asked.export name names)) result }
{
    match names_line(alloc, parts, fault) {
        Ok(line) => Refusal::BadName(line),
        Err(_) => Refusal::NoMemory,
    }
}

/// The line that tells the first constraint that is false.
fn invalid_line(alloc: Global, at: usize) -> Result<String, AllocError>
    ensures { IfOk result (λ line. string_bytes line ≡ invalid_line at) }
{
    format!(in alloc; "invalid selection: constraint {at}\n")
}

/// The refusal of a selection under which this constraint is the first that is false. Without memory for the line there is none to
/// say which.
fn invalid(alloc: Global, at: usize) -> Refusal
    ensures { (inputs : List ℕ → Known) (name names : List ℕ) (line : _) (s : _) → StandsFor (inputs name) line
        → IsSpelled line.model.features (named_parts names) s → IsFirstFalse line.model.constraints s at
        → IsRefusal inputs ⊥ (Some (Asked.export name names)) result }
{
    match invalid_line(alloc, at) {
        Ok(line) => Refusal::Invalid(line),
        Err(_) => Refusal::NoMemory,
    }
}

/// The selection of a project's features that the parts of a word name.
fn selection_of_parts(
    alloc: Global,
    project: &Project,
    parts: &[&str],
) -> Result<Selection, Refusal>
    ensures spelled { IfOk result (IsSpelled project.now.model.features (map (λ part. part.now) parts.now)) }
    ensures refused { IfErr result (λ refusal. (inputs : List ℕ → Known) (name names : List ℕ)
        → map (λ part. part.now) parts.now ≡ named_parts names → StandsFor (inputs name) project.now
        → IsRefusal inputs ⊥ (Some (Asked.export name names)) refusal) }
{
    match read_names(alloc, project.model(), parts)? {
        Ok(selection) => Ok(selection),
        Err(fault) => Err(bad_name(alloc, parts, fault)),
    }
}

/// The selection of a project's features that a word names.
fn selection_of(alloc: Global, project: &Project, names: &str) -> Result<Selection, Refusal>
    ensures spelled { IfOk result (IsSpelled project.now.model.features (named_parts names.now)) }
    ensures refused { IfErr result (λ refusal. (inputs : List ℕ → Known) (name : List ℕ)
        → StandsFor (inputs name) project.now → IsRefusal inputs ⊥ (Some (Asked.export name names.now)) refusal) }
{
    let parts = parts(alloc, names)?;
    selection_of_parts(alloc, project, parts.as_slice())
}

/// Prints the variant that a project has under the selection that the names in a word spell.
fn export_project<O: Sink>(
    alloc: Global,
    project: &Project,
    names: &str,
    out: &mut O,
) -> Result<u8, Refusal>
    ensures { (inputs : List ℕ → Known) (name : List ℕ) → StandsFor (inputs name) project.now
        → IsAnswer inputs ⊥ (Gains O.Sink out.old out.new) (Some (Asked.export name names.now)) result }
{
    let selection = selection_of(alloc, project, names)?;
    match export_variant(project, &selection, out) {
        Ok(()) => Ok(0),
        Err(ExportFault::InvalidSelection(at)) => Err(invalid(alloc, at)),
        Err(ExportFault::WriteFault) => Err(Refusal::WriteFault),
    }
}

/// Prints the variant that the project of this name has under the selection that the names in a word spell.
pub fn export<R: Room, O: Sink>(
    alloc: Global,
    name: &str,
    names: &str,
    room: &mut R,
    out: &mut O,
) -> Result<u8, Refusal>
    ensures answer { IsAnswer (R.input room.old) (Rose (R.read_faults room.old) (R.read_faults room.new))
        (Gains O.Sink out.old out.new) (Some (Asked.export name.now names.now)) result }
    ensures frame { OnlyReads R.Room room.old room.new }
{
    let project = read_project(alloc, room, name)?;
    export_project(alloc, &project, names, out)
}
