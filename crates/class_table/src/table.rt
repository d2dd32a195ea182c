//! Class tables: subtypes, and fields and methods along chains of superclasses.

ghost use Rattle.std.specs.Prelude.{◌≡◌, [], IfOk};
ghost use Rattle.std.specs.Option.{option_copied};
ghost use Rattle.std.specs.List.{list_any};
ghost use Rattle.std.specs.Str.{bytes_eq};
ghost use Rattle.cfj_model.specs.LookUps as spec;
ghost use Rattle.class_table.specs.ByName.{HasChains, seen};

use crate::class_map::ClassMap;
use crate::superclasses::chain;
use cfj_model::{Class, Field, Items, Method, Name, Project};
use indexmap::IndexMap;
use std::alloc::{AllocError, Global};
use std::marker::Model;

/// The class table of a project: its classes and the chain of each, by name. The chains are made once.
#[derive(Drop)]
pub struct ClassTable<'a> {
    classes: ClassMap<'a>,
    chains: IndexMap<&'a str, Items<&'a Class>>,
    no_chain: Items<&'a Class>,
    ghost none: { no_chain ≡ [] },
    ghost chained: { HasChains classes chains.entries },
}

impl<'a> Model for ClassTable<'a> {
    ghost use Rattle.std.specs.Prelude.{List};
    ghost use Rattle.std.specs.Coded.{codes};
    ghost use Rattle.cfj_model.specs.contracts.expr.Expr as expr;
    ghost use Rattle.cfj_model.specs.declared.class.Class.{Class};

    ghost Value = { List Class };

    ghost coded = { Prim.hlevel (codes, expr.the_row.coded) };

    ghost view = { λ t. t.classes };
}

impl<'a> ClassTable<'a> {
    /// The table of this project.
    pub fn of(alloc: Global, project: &'a Project) -> Result<ClassTable<'a>, AllocError>
        ensures { IfOk result (λ table. table ≡ project.now.classes) }
    {
        let classes = ClassMap::of(alloc, project)?;
        let chains = chains_of(alloc, project, &classes)?;
        Ok(ClassTable {
            classes,
            chains,
            no_chain: Items::of(Vec::new(alloc)),
        })
    }

    /// A class, its superclass, and so on, up to an undeclared name or to a class that is taken already.
    pub fn chain(&self, name: &Name) -> &[&'a Class]
        ensures { seen result.now ≡ spec.chain self.now name.now }
    {
        match self.chains.get(name.text()) {
            Some(chain) => chain.slice(),
            None => self.no_chain.slice(),
        }
    }

    /// Whether a name is `Object` or declared.
    pub fn is_known(&self, name: &Name) -> bool
        ensures { result ≡ spec.is_known self.now name.now }
    {
        name.text() == "Object" || self.classes.declared(name).is_some()
    }

    /// Whether a class is another one, or below it.
    pub fn is_subtype(&self, class: &Name, above: &Name) -> bool
        ensures { result ≡ spec.is_subtype self.now class.now above.now }
    {
        class.text() == above.text() || is_extended(self.chain(class), above)
    }

    /// The nearest declaration of a field.
    pub fn field_of(&self, class: &Name, name: &Name) -> Option<&'a Field>
        ensures { option_copied result ≡ spec.field_of self.now class.now name.now }
    {
        nearest_field(self.chain(class), name)
    }

    /// The nearest declaration of a method.
    pub fn method_of(&self, class: &Name, name: &Name) -> Option<&'a Method>
        ensures { option_copied result ≡ spec.method_of self.now class.now name.now }
    {
        nearest_method(self.chain(class), name)
    }
}

/// The chain of each class, by its name.
fn chains_of<'a>(
    alloc: Global,
    project: &'a Project,
    classes: &ClassMap<'a>,
) -> Result<IndexMap<&'a str, Items<&'a Class>>, AllocError>
    requires { classes.now ≡ project.now.classes }
    ensures { IfOk result (λ chains. HasChains project.now.classes chains.entries) }
{
    let mut chains: IndexMap<&'a str, Items<&'a Class>> = IndexMap::new(alloc);
    'each: for place in 0..project.class_count() {
        let class = project.class(place);
        let found = chain(alloc, classes, &class.name)?;
        chains.insert(class.name.text(), Items::of(found))?;
    }
    Ok(chains)
}

/// Whether a class of the chain has this superclass.
pub fn is_extended(chain: &[&Class], name: &Name) -> bool
    ensures { result ≡ list_any (λ k. bytes_eq k.now.parent name.now) chain.now }
{
    let name = name.text();
    chain.iter().any(|class| class.parent.text() == name)
}

/// The field of this name that a class itself declares.
fn field_called<'a>(class: &'a Class, name: &Name) -> Option<&'a Field>
    ensures { option_copied result ≡ spec.field_called name.now class.now }
{
    let name = name.text();
    class
        .fields
        .slice()
        .iter()
        .find(|field| field.name.text() == name)
}

/// The method of this name that a class itself declares.
fn method_called<'a>(class: &'a Class, name: &Name) -> Option<&'a Method>
    ensures { option_copied result ≡ spec.method_called name.now class.now }
{
    let name = name.text();
    class
        .methods
        .slice()
        .iter()
        .find(|method| method.name.text() == name)
}

/// The first field of this name along a chain.
pub fn nearest_field<'a>(chain: &[&'a Class], name: &Name) -> Option<&'a Field>
    ensures { option_copied result ≡ spec.first_some (spec.field_called name.now) (seen chain.now) }
{
    'each: for class in chain {
        let found = field_called(class, name);
        if found.is_some() {
            return found;
        }
    }
    None
}

/// The first method of this name along a chain.
pub fn nearest_method<'a>(chain: &[&'a Class], name: &Name) -> Option<&'a Method>
    ensures { option_copied result ≡ spec.first_some (spec.method_called name.now) (seen chain.now) }
{
    'each: for class in chain {
        let found = method_called(class, name);
        if found.is_some() {
            return found;
        }
    }
    None
}
