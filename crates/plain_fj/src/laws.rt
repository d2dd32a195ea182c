//! A law over the definitions alone.

ghost use Rattle.std.specs.Prelude.{◌≡◌, ◌↔◌, None};
ghost use Rattle.cfj_model.specs.Judging.{first_breaking};
ghost use Rattle.cfj_model.specs.Typing.{IsWellTyped};

use cfj_model::Project;

/// A law: a project is well typed exactly where no rule breaks in it. Its colours play no part.
pub fn well_typed_exactly(project: &Project)
    ensures { IsWellTyped project.now.classes ↔ (first_breaking project.now.classes ≡ None) }
{
    let _kept = project.model();
}
