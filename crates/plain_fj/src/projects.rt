//! The rules of a whole project.

ghost use Rattle.std.specs.Prelude.{◌≡◌, ◌↔◌, None, IfOk, map};
ghost use Rattle.cfj_model.specs.Judging.{Breaks, first_breaking};
ghost use Rattle.cfj_model.specs.ProductLines.{IsProject};
ghost use Rattle.cfj_model.specs.Typing.{IsWellTyped};
ghost use Rattle.cfj_words.specs.Lists.{Has};
ghost use Rattle.cfj_model.specs.declared.site.Rule.{Rule};
ghost use Rattle.cfj_model.specs.declared.site.Site.{Site};
ghost use Rattle.plain_fj.specs.Breaking.{breaking, told};

use crate::classes::judge_class;
use crate::site_break::Break;
use cfj_model::{Project, Rule, Site};
use class_table::ClassTable;
use std::alloc::{AllocError, Global};

/// The breaks of a project.
fn judge_project<'a>(
    alloc: Global,
    table: &ClassTable<'a>,
    project: &'a Project,
) -> Result<Vec<Break<'a>>, AllocError>
    requires { table.now ≡ project.now.classes }
    ensures found { IfOk result (λ found. map told found.items ≡ breaking project.now.classes) }
    ensures kept { IsProject project.now }
{
    let mut breaks: Vec<Break<'a>> = Vec::new(alloc);
    'each: for place in 0..project.class_count() {
        judge_class(alloc, table, project.class(place), &mut breaks)?;
    }
    Ok(breaks)
}

/// The breaks of a project, by a table of its own.
fn breaks_of<'a>(alloc: Global, project: &'a Project) -> Result<Vec<Break<'a>>, AllocError>
    ensures found { IfOk result (λ found. map told found.items ≡ breaking project.now.classes) }
    ensures kept { IfOk result (λ _. IsProject project.now) }
{
    let table = ClassTable::of(alloc, project)?;
    judge_project(alloc, &table, project)
}

/// The pairs that these breaks are.
fn pairs_of(alloc: Global, breaks: &[Break<'_>]) -> Result<Vec<(Site, Rule)>, AllocError>
    ensures { IfOk result (λ pairs. pairs.items ≡ map told breaks.now) }
{
    let mut pairs: Vec<(Site, Rule)> = Vec::new(alloc);
    'each: for found in breaks {
        pairs.push(found.pair(alloc)?)?;
    }
    Ok(pairs)
}

/// Each site of a project at which a rule of Featherweight Java breaks, and the rule: in the order of the text, and at one site in the
/// order of the rules (Igarashi, Pierce, Wadler, TOPLAS 23(3), 2001).
///
/// Colours and the feature model play no part. Fails only where there is no memory.
pub fn every_break(alloc: Global, project: &Project) -> Result<Vec<(Site, Rule)>, AllocError>
    ensures found { IfOk result (λ found. found.items ≡ breaking project.now.classes) }
    ensures each { IfOk result (λ found. (s : Site) (r : Rule) → Breaks project.now.classes s r ↔ Has found.items (s, r)) }
{
    let breaks = breaks_of(alloc, project)?;
    let pairs = pairs_of(alloc, breaks.as_slice())?;
    Ok(pairs)
}

/// The first site of a project at which a rule of Featherweight Java breaks, and the rule: in the order of the text, and at one
/// site in the order of the rules. `None` exactly where the project is well typed.
///
/// Colours and the feature model play no part. Fails only where there is no memory.
pub fn first_break(alloc: Global, project: &Project) -> Result<Option<(Site, Rule)>, AllocError>
    ensures first { IfOk result (λ found. found ≡ first_breaking project.now.classes) }
    ensures typed { IfOk result (λ found. IsWellTyped project.now.classes ↔ (found ≡ None)) }
{
    let breaks = breaks_of(alloc, project)?;
    match breaks.as_slice().first() {
        Some(found) => {
            let pair = found.pair(alloc)?;
            Ok(Some(pair))
        }
        None => Ok(None),
    }
}
