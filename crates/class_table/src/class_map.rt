//! The classes of a project by their names.

ghost use Rattle.std.specs.Prelude.{◌≡◌, IfOk, length};
ghost use Rattle.std.specs.Option.{option_copied};
ghost use Rattle.cfj_model.specs.LookUps as spec;
ghost use Rattle.class_table.specs.ByName.{HasClasses};

use cfj_model::{Class, Name, Project};
use indexmap::IndexMap;
use std::alloc::{AllocError, Global};
use std::marker::Model;

/// The classes of a project, with a look-up by name that doesn't go through them.
///
/// Contracts see it as the project's class table.
#[derive(Drop)]
pub struct ClassMap<'a> {
    project: &'a Project,
    by_name: IndexMap<&'a str, &'a Class>,
    ghost known: { HasClasses project.now.classes by_name.entries },
}

impl<'a> Model for ClassMap<'a> {
    ghost use Rattle.std.specs.Prelude.{List};
    ghost use Rattle.std.specs.Coded.{codes};
    ghost use Rattle.cfj_model.specs.contracts.expr.Expr as expr;
    ghost use Rattle.cfj_model.specs.declared.class.Class.{Class};

    ghost Value = { List Class };

    ghost coded = { Prim.hlevel (codes, expr.the_row.coded) };

    ghost view = { λ m. m.project.now.classes };
}

impl<'a> ClassMap<'a> {
    /// The classes of this project.
    pub fn of(alloc: Global, project: &'a Project) -> Result<ClassMap<'a>, AllocError>
        ensures { IfOk result (λ map. map ≡ project.now.classes) }
    {
        let by_name = classes_by_name(alloc, project)?;
        Ok(ClassMap { project, by_name })
    }

    /// The number of its classes.
    pub fn len(&self) -> usize
        ensures { result ≡ length self.now }
    {
        self.project.class_count()
    }

    /// The class of this name.
    pub fn declared(&self, name: &Name) -> Option<&'a Class>
        ensures { option_copied result ≡ spec.declared self.now name.now }
    {
        self.by_name.get(name.text()).copied()
    }
}

/// Each class by its name.
fn classes_by_name<'a>(
    alloc: Global,
    project: &'a Project,
) -> Result<IndexMap<&'a str, &'a Class>, AllocError>
    ensures { IfOk result (λ map. HasClasses project.now.classes map.entries) }
{
    let mut map: IndexMap<&'a str, &'a Class> = IndexMap::new(alloc);
    'each: for place in 0..project.class_count() {
        let class = project.class(place);
        map.insert(class.name.text(), class)?;
    }
    Ok(map)
}
