//! The command `check` with `--migrate`.
ghost use Rattle.std.specs.Prelude.{ℕ, List, Some};
ghost use Rattle.cide_io.specs.Faults.{Rose};
ghost use Rattle.cide_io.specs.Known.{Known};
ghost use Rattle.cide_io.specs.Changes.{Gains, OnlyReads};
ghost use Rattle.command_words.specs.Asked.{Asked};
ghost use Rattle.cide_tool.specs.ProjectTexts.{StandsFor};
ghost use Rattle.cide_tool.specs.Refusals.{IsAnswer};

use crate::project::read_project;
use crate::refusal::Refusal;
use cfj_model::Project;
use cide_io::{Room, Sink};
use fj_printer::print_migrated;
use std::alloc::Global;

/// Prints a project as one of format two.
fn migrate_project<O: Sink>(project: &Project, out: &mut O) -> Result<u8, Refusal>
    ensures { (inputs : List ℕ → Known) (name : List ℕ) → StandsFor (inputs name) project.now
        → IsAnswer inputs ⊥ (Gains O.Sink out.old out.new) (Some (Asked.migrate name)) result }
{
    print_migrated(project, out)?;
    Ok(0)
}

/// Prints the project of this name as one of format two. It isn't judged.
pub fn migrate<R: Room, O: Sink>(
    alloc: Global,
    name: &str,
    room: &mut R,
    out: &mut O,
) -> Result<u8, Refusal>
    ensures answer { IsAnswer (R.input room.old) (Rose (R.read_faults room.old) (R.read_faults room.new))
        (Gains O.Sink out.old out.new) (Some (Asked.migrate name.now)) result }
    ensures frame { OnlyReads R.Room room.old room.new }
{
    let project = read_project(alloc, room, name)?;
    migrate_project(&project, out)
}
