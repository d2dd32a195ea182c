//! The chain of superclasses above a name.

ghost use Rattle.std.specs.Prelude.{◌≡◌, [], IfOk, if◌then◌else◌, is_some, Option, None};
ghost use Rattle.std.specs.Map.{lookup};
ghost use Rattle.std.specs.Option.{option_copied};
ghost use Rattle.std.specs.Str.{bytes_eq};
ghost use Rattle.cfj_model.specs.LookUps as spec;
ghost use Rattle.cfj_model.specs.declared.class.Class.{Class};
ghost use Rattle.class_table.specs.ByName.{seen};

use crate::class_map::ClassMap;
use cfj_model::{Class, Name};
use indexmap::IndexMap;
use std::alloc::{AllocError, Global};

/// The class of this name, where it isn't taken yet.
fn untaken<'a>(
    classes: &ClassMap<'a>,
    taken: &IndexMap<&'a str, &'a Class>,
    name: &Name,
) -> Option<&'a Class>
    ensures { option_copied result ≡
        (if is_some (lookup (λ k. bytes_eq name.now k.now) taken.now.entries) then (let none : Option Class = None in none)
        else spec.declared classes.now name.now) }
{
    if taken.get(name.text()).is_some() {
        return None;
    }
    classes.declared(name)
}

/// A class, its superclass, and so on, up to an undeclared name or to a class that is taken already. Each is taken.
fn climb<'a>(
    alloc: Global,
    classes: &ClassMap<'a>,
    taken: &mut IndexMap<&'a str, &'a Class>,
    name: &'a Name,
) -> Result<Vec<&'a Class>, AllocError>
    requires { taken.now.entries ≡ [] }
    ensures { IfOk result (λ found. seen found.items ≡ spec.chain classes.now name.now) }
{
    let mut found: Vec<&'a Class> = Vec::new(alloc);
    let mut at = name;
    'up: for _step in 0..classes.len() {
        match untaken(classes, taken, at) {
            None => return Ok(found),
            Some(class) => {
                taken.insert(class.name.text(), class)?;
                found.push(class)?;
                at = &class.parent;
            }
        }
    }
    Ok(found)
}

/// A class, its superclass, and so on, up to an undeclared name or to a class that stood before.
pub fn chain<'a>(
    alloc: Global,
    classes: &ClassMap<'a>,
    name: &'a Name,
) -> Result<Vec<&'a Class>, AllocError>
    ensures { IfOk result (λ found. seen found.items ≡ spec.chain classes.now name.now) }
{
    let mut taken: IndexMap<&'a str, &'a Class> = IndexMap::new(alloc);
    climb(alloc, classes, &mut taken, name)
}
