//! The project that a command reads.
ghost use Rattle.std.specs.Prelude.{◌≡◌, ℕ, ◌≤◌, List, Some, Err, IfOk, IfErr, length, string_bytes};
ghost use Rattle.cfj_model.specs.Faults.{IsFirstFault};
ghost use Rattle.cfj_model.specs.Languages.{IsTextOf, projects};
ghost use Rattle.cide_io.specs.Faults.{Rose};
ghost use Rattle.cide_io.specs.Known.{Known};
ghost use Rattle.cide_io.specs.Changes.{OnlyReads};
ghost use Rattle.command_words.specs.Asked.{Asked};
ghost use Rattle.cide_tool.specs.Endings.{project_of};
ghost use Rattle.cide_tool.specs.Lines.{fault_line};
ghost use Rattle.cide_tool.specs.ProjectTexts.{IsProjectText, StandsFor, most_bytes};
ghost use Rattle.cide_tool.specs.Refusals.{IsInput, IsRefusal};

use crate::refusal::Refusal;
use cfj_model::{FaultKind, ParseFault, Project};
use cide_io::{OpenFault, ReadAll, Room, read_all};
use fj_parser::parse_project;
use std::alloc::{AllocError, Global};

/// The most bytes in the text of a project.
const MOST_BYTES: usize = 4_194_304;

/// Opens an input, reads it to its end, and hands it back whatever came of that. An input that can't be opened counts
/// as one that can't be read.
fn read_input<R: Room>(alloc: Global, room: &mut R, name: &str) -> Result<Vec<u8>, ReadAll>
    ensures text { IsInput (R.input room.old name.now) result }
    ensures cause { result ≡ Err ReadAll.ReadFault → Rose (R.read_faults room.old) (R.read_faults room.new) }
    ensures frame { OnlyReads R.Room room.old room.new }
{
    let mut source = match room.open_in(name) {
        Ok(source) => source,
        Err(OpenFault::Failed) => return Err(ReadAll::ReadFault),
        Err(OpenFault::NoMemory) => return Err(ReadAll::NoMemory),
    };
    let read = read_all(alloc, &mut source, MOST_BYTES);
    room.shut_in(source);
    read
}

/// The line that tells the first fault of a text.
fn fault_line(alloc: Global, at: usize, kind: &FaultKind) -> Result<String, AllocError>
    ensures { IfOk result (λ line. string_bytes line ≡ fault_line at kind.now) }
{
    format!(in alloc; "refused at {at}: {kind}\n")
}

/// The refusal of a text with a first fault. Without memory for the line there is none to say why.
fn no_text(alloc: Global, text: &[u8], at: usize, kind: &FaultKind) -> Refusal
    requires short { length text.now ≤ most_bytes }
    requires first { IsFirstFault projects text.now at kind.now }
    ensures { (inputs : List ℕ → Known) (asked : Asked) → IsProjectText (inputs (project_of asked)) text.now
        → IsRefusal inputs ⊥ (Some asked) result }
{
    match fault_line(alloc, at, kind) {
        Ok(line) => Refusal::NoText(line),
        Err(_) => Refusal::NoMemory,
    }
}

/// The project that a text stands for.
fn parse(alloc: Global, text: &[u8]) -> Result<Project, Refusal>
    requires { length text.now ≤ most_bytes }
    ensures read { IfOk result (IsTextOf projects text.now) }
    ensures refused { IfErr result (λ refusal. (inputs : List ℕ → Known) (asked : Asked)
        → IsProjectText (inputs (project_of asked)) text.now → IsRefusal inputs ⊥ (Some asked) refusal) }
{
    match parse_project(alloc, text) {
        Ok(project) => Ok(project),
        Err(ParseFault::At { at, kind }) => Err(no_text(alloc, text, at, &kind)),
        Err(ParseFault::NoMemory) => Err(Refusal::NoMemory),
    }
}

/// Reads the project of this name, which a command asks for.
pub fn read_project<R: Room>(alloc: Global, room: &mut R, name: &str) -> Result<Project, Refusal>
    ensures read { IfOk result (StandsFor (R.input room.old name.now)) }
    ensures refused { IfErr result (λ refusal. (asked : Asked) → project_of asked ≡ name.now
        → IsRefusal (R.input room.old) (Rose (R.read_faults room.old) (R.read_faults room.new)) (Some asked) refusal) }
    ensures frame { OnlyReads R.Room room.old room.new }
{
    let text = read_input(alloc, room, name)?;
    parse(alloc, text.as_slice())
}
