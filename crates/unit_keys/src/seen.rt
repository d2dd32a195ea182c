//! Parts of a project that are looked at, to be compared.

ghost use Rattle.std.specs.Prelude.{◌≡◌, ◌↔◌, ◌≤◌, IsTrue, length, map};
ghost use Rattle.unit_facts.specs.Facts.{head_of, own_of, signature_of, taken_of};
ghost use Rattle.unit_keys.specs.Parts.{IsNextNamed, seen_contents, signatures_among};

use cfj_model::{Class, FeatureModel, Method, Name, Param};
use class_equality::{Same, same_items};

/// A part of a project by what it holds.
#[derive(Clone, Copy)]
pub(crate) enum Seen<'a> {
    /// There is none.
    Absent,
    /// The feature model.
    Model(&'a FeatureModel),
    /// A class as others see it.
    Head(&'a Class),
    /// All declarations in a class that have the name of a method of it.
    Signatures(&'a Class, &'a Method),
    /// A class without its methods.
    Own(&'a Class),
    /// A method.
    Method(&'a Method),
}

// Whether two classes are the same as others see them.
fn is_same_head(class: &Class, other: &Class) -> bool
    ensures { IsTrue result ↔ (head_of class.now ≡ head_of other.now) }
{
    class.colors == other.colors
        && class.parent == other.parent
        && same_items(class.fields.slice(), other.fields.slice())
}

// Whether two classes are the same but for their methods.
fn is_same_own(class: &Class, other: &Class) -> bool
    ensures { IsTrue result ↔ (own_of class.now ≡ own_of other.now) }
{
    class.name == other.name && is_same_head(class, other) && class.ctor.same(&other.ctor)
}

// Whether two parameters are the same but for their slots.
fn is_same_taken(param: &Param, other: &Param) -> bool
    ensures { IsTrue result ↔ (taken_of param.now ≡ taken_of other.now) }
{
    param.colors == other.colors && param.of == other.of && param.name == other.name
}

// Whether two lists of parameters are the same but for the slots.
fn are_same_taken(params: &[Param], others: &[Param]) -> bool
    ensures { IsTrue result ↔ (map taken_of params.now ≡ map taken_of others.now) }
{
    if params.len() != others.len() {
        return false;
    }
    'each: for place in 0..params.len() {
        if !is_same_taken(&params[place], &others[place]) {
            return false;
        }
    }
    true
}

// Whether two methods are the same as others see them.
fn is_same_signature(method: &Method, other: &Method) -> bool
    ensures { IsTrue result ↔ (signature_of method.now ≡ signature_of other.now) }
{
    method.alt == other.alt
        && method.colors == other.colors
        && method.result == other.result
        && are_same_taken(method.params.slice(), other.params.slice())
}

// The place of the first of these methods from a place on that has this name; their number where none has.
fn next_named(methods: &[Method], from: usize, name: &Name) -> usize
    requires { from ≤ length methods.now }
    ensures { IsNextNamed name.now methods.now from result }
{
    'each: for place in from..methods.len() {
        if methods[place].name == *name {
            return place;
        }
    }
    methods.len()
}

// Whether the methods of one name among some are, as others see them, those of another name among others.
fn are_same_signatures(
    methods: &[Method],
    name: &Name,
    others: &[Method],
    other_name: &Name,
) -> bool
    ensures { IsTrue result ↔ (signatures_among name.now methods.now ≡ signatures_among other_name.now others.now) }
{
    let mut at = 0usize;
    'each: for method in methods {
        if method.name == *name {
            let place = next_named(others, at, other_name);
            if place == others.len() || !is_same_signature(method, &others[place]) {
                return false;
            }
            at = place + 1;
        }
    }
    next_named(others, at, other_name) == others.len()
}

/// Whether both hold the same.
pub(crate) fn is_same(some: Seen<'_>, other: Seen<'_>) -> bool
    ensures { IsTrue result ↔ (seen_contents some.entry ≡ seen_contents other.entry) }
{
    match some {
        Seen::Absent => matches!(other, Seen::Absent),
        Seen::Model(model) => match other {
            Seen::Model(other_model) => model.same(other_model),
            _ => false,
        },
        Seen::Head(class) => match other {
            Seen::Head(other_class) => is_same_head(class, other_class),
            _ => false,
        },
        Seen::Signatures(class, method) => match other {
            Seen::Signatures(other_class, other_method) => are_same_signatures(
                class.methods.slice(),
                &method.name,
                other_class.methods.slice(),
                &other_method.name,
            ),
            _ => false,
        },
        Seen::Own(class) => match other {
            Seen::Own(other_class) => is_same_own(class, other_class),
            _ => false,
        },
        Seen::Method(method) => match other {
            Seen::Method(other_method) => method.same(other_method),
            _ => false,
        },
    }
}
