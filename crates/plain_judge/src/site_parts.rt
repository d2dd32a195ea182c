//! The parts of a site, by which it is looked up.

ghost use Rattle.std.specs.Prelude.{◌≡◌, []};
ghost use Rattle.plain_judge.specs.SiteParts.{class_parts, parts_of, seen};

use cfj_model::Site;

/// What a site is of.
#[derive(Clone, Copy, PartialEq, Eq, Hash)]
pub enum Kind {
    Model,
    Class,
    Field,
    Ctor,
    CtorParam,
    SuperArg,
    Assign,
    Method,
    Param,
    Node,
}

/// The parts of a site, with no text and 0 for those that its kind lacks.
///
/// Numbers stand before texts, so that they are compared first.
#[derive(Clone, Copy, PartialEq, Eq, Hash)]
pub struct Parts<'a> {
    /// What it is of.
    pub kind: Kind,
    /// How many members of this kind and name stand before it.
    pub alt: u16,
    /// The number of the node.
    pub slot: u16,
    /// The class's name.
    pub class: &'a str,
    /// The name of the member.
    pub member: &'a str,
}

impl<'a> Parts<'a> {
    fn of_class(kind: Kind, class: &'a str, slot: u16) -> Parts<'a>
        ensures { seen result ≡ class_parts kind class.now slot }
    {
        Parts {
            kind,
            class,
            member: "",
            alt: 0,
            slot,
        }
    }
}

/// The parts of a site.
pub fn read_parts(site: &Site) -> Parts<'_>
    ensures { seen result ≡ parts_of site.now }
{
    match site {
        Site::Model => Parts::of_class(Kind::Model, "", 0),
        Site::Class(class) => Parts::of_class(Kind::Class, class.text(), 0),
        Site::Ctor(class) => Parts::of_class(Kind::Ctor, class.text(), 0),
        Site::CtorParam(class, slot) => Parts::of_class(Kind::CtorParam, class.text(), *slot),
        Site::SuperArg(class, slot) => Parts::of_class(Kind::SuperArg, class.text(), *slot),
        Site::Assign(class, slot) => Parts::of_class(Kind::Assign, class.text(), *slot),
        Site::Field(class, field, alt) => Parts {
            kind: Kind::Field,
            class: class.text(),
            member: field.text(),
            alt: *alt,
            slot: 0,
        },
        Site::Method(class, method, alt) => Parts {
            kind: Kind::Method,
            class: class.text(),
            member: method.text(),
            alt: *alt,
            slot: 0,
        },
        Site::Param(class, method, alt, slot) => Parts {
            kind: Kind::Param,
            class: class.text(),
            member: method.text(),
            alt: *alt,
            slot: *slot,
        },
        Site::Node(class, method, alt, slot) => Parts {
            kind: Kind::Node,
            class: class.text(),
            member: method.text(),
            alt: *alt,
            slot: *slot,
        },
    }
}
