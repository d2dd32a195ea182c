//! The units of a project.

ghost use Rattle.std.specs.Prelude.{◌≡◌, ◌++◌, IfOk, OnOk, map};
ghost use Rattle.unit_facts.specs.Units.{class_units, units_of};
ghost use Rattle.unit_facts.specs.declared.unit.Unit.TheVariants as unit;

use cfj_model::{Class, Project};
use std::alloc::{AllocError, Global};
use unit_facts::Unit;

// Adds the units of a class's methods.
fn add_methods(alloc: Global, units: &mut Vec<Unit>, class: &Class) -> Result<(), AllocError>
    ensures { OnOk result (units.new.items ≡ units.old.items ++ map (λ m. unit.Method class.now.name m.name m.alt) class.now.methods) }
{
    'each: for method in class.methods.slice() {
        let class_name = class.name.copy(alloc)?;
        let name = method.name.copy(alloc)?;
        units.push(Unit::Method(class_name, name, method.alt))?;
    }
    Ok(())
}

// Adds the units of a class: its own, and its methods'.
fn add_class(alloc: Global, units: &mut Vec<Unit>, class: &Class) -> Result<(), AllocError>
    ensures { OnOk result (units.new.items ≡ units.old.items ++ class_units class.now) }
{
    units.push(Unit::Class(class.name.copy(alloc)?))?;
    add_methods(alloc, units, class)
}

/// The units of a project in their order: the feature model, then class by class the class itself and its methods.
///
/// # Errors
///
/// There is no memory for them.
pub fn units(alloc: Global, project: &Project) -> Result<Vec<Unit>, AllocError>
    ensures { IfOk result (λ units. units.items ≡ units_of project.now.classes) }
{
    let mut units: Vec<Unit> = Vec::new(alloc);
    units.push(Unit::Model)?;
    'each: for place in 0..project.class_count() {
        add_class(alloc, &mut units, project.class(place))?;
    }
    Ok(units)
}
