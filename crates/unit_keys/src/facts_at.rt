//! The facts of a project by their keys.

ghost use Rattle.std.specs.Prelude.{◌≡◌, position};
ghost use Rattle.std.specs.Option.{option_copied};
ghost use Rattle.std.specs.Str.{bytes_eq};
ghost use Rattle.cfj_model.specs.LookUps.{declared};
ghost use Rattle.unit_facts.specs.Facts.{fact, own_fact};
ghost use Rattle.unit_facts.specs.Units.{is_declaration};
ghost use Rattle.unit_facts.specs.declared.unit.Key.TheVariants as key;
ghost use Rattle.unit_facts.specs.declared.unit.Unit.TheVariants as unit;

use crate::fact::FactRef;
use crate::part::Part;
use cfj_model::{Class, Method, Name, Project, Shared};
use unit_facts::{Key, Unit};

// An owner of the class of this name.
fn owner_of<'a>(project: &'a Project, name: &Name) -> Option<&'a Shared<Class>>
    ensures { option_copied result ≡ declared project.now.classes name.now }
{
    match project.find(name) {
        Some(place) => Some(project.owner(place)),
        None => None,
    }
}

// The place of the first of these methods that has this name.
fn place_named(methods: &[Method], name: &Name) -> Option<usize>
    ensures { result ≡ position (λ d. bytes_eq d.name name.now) methods.now }
{
    methods.iter().position(|method| method.name == *name)
}

// The place of the method with this name and alt.
fn place_declared(methods: &[Method], name: &Name, alt: u16) -> Option<usize>
    ensures { result ≡ position (is_declaration name.now alt) methods.now }
{
    methods
        .iter()
        .position(|method| method.name == *name && method.alt == alt)
}

fn head_fact<'a>(project: &'a Project, class: &Name) -> FactRef<'a>
    ensures { result ≡ fact project.now (key.Head class.now) }
{
    match owner_of(project, class) {
        Some(owner) => FactRef::of(Part::Head(owner)),
        None => FactRef::of(Part::Absent),
    }
}

fn signatures_fact<'a>(project: &'a Project, class: &Name, method: &Name) -> FactRef<'a>
    ensures { result ≡ fact project.now (key.Sig class.now method.now) }
{
    let Some(owner) = owner_of(project, class) else {
        return FactRef::of(Part::Absent);
    };
    match place_named(owner.get().methods.slice(), method) {
        Some(place) => FactRef::of(Part::Signatures(owner, place)),
        None => FactRef::of(Part::Absent),
    }
}

fn class_fact<'a>(project: &'a Project, class: &Name) -> FactRef<'a>
    ensures { result ≡ own_fact project.now.classes (unit.Class class.now) }
{
    match owner_of(project, class) {
        Some(owner) => FactRef::of(Part::Own(owner)),
        None => FactRef::of(Part::Absent),
    }
}

fn method_fact<'a>(project: &'a Project, class: &Name, method: &Name, alt: u16) -> FactRef<'a>
    ensures { result ≡ own_fact project.now.classes (unit.Method class.now method.now alt) }
{
    let Some(owner) = owner_of(project, class) else {
        return FactRef::of(Part::Absent);
    };
    match place_declared(owner.get().methods.slice(), method, alt) {
        Some(place) => FactRef::of(Part::Method(owner, place)),
        None => FactRef::of(Part::Absent),
    }
}

/// The fact of a project at a key. No memory is taken, and a class is found by one look-up.
pub fn fact_at<'a>(project: &'a Project, key: &Key) -> FactRef<'a>
    ensures { result ≡ fact project.now key.now }
{
    match key {
        Key::Model => FactRef::of(Part::Model(project.model())),
        Key::Head(class) => head_fact(project, class),
        Key::Sig(class, method) => signatures_fact(project, class, method),
        Key::Own(Unit::Model) => FactRef::of(Part::Absent),
        Key::Own(Unit::Class(class)) => class_fact(project, class),
        Key::Own(Unit::Method(class, method, alt)) => method_fact(project, class, method, *alt),
    }
}
