//! The nodes of a project, and the rules that are judged at them.
ghost use Rattle.std.specs.Prelude.{◌≡◌, Some, IfOk};
ghost use Rattle.cfj_model.specs.Judging.{rank};
ghost use Rattle.cfj_model.specs.Sites as spec;

use crate::site_ref::SiteRef;
use cfj_words::Name;
use std::alloc::{AllocError, Global};
use std::fmt;

/// A node of a project, by names and numbers that no edit elsewhere changes.
///
/// The third part of a field, a method, a parameter of one and a node of its body is the member's alt: how many members of its
/// kind and name stand before it in its class. The last number of the others is a slot.
#[derive(Debug, Drop, PartialEq, Eq, PartialOrd, Ord, Hash)]
pub enum Site {
    /// The feature model.
    Model,
    /// A class.
    Class(Name),
    /// A field of a class.
    Field(Name, Name, u16),
    /// The constructor of a class.
    Ctor(Name),
    /// A parameter of the constructor.
    CtorParam(Name, u16),
    /// A name that the constructor passes to `super`.
    SuperArg(Name, u16),
    /// An assignment of the constructor.
    Assign(Name, u16),
    /// A method of a class.
    Method(Name, Name, u16),
    /// A parameter of a method.
    Param(Name, Name, u16, u16),
    /// A node of a method's body.
    Node(Name, Name, u16, u16),
}

/// A rule of Featherweight Java as this project numbers them: of declarations, then of expressions.
#[derive(Clone, Copy, Debug, PartialEq, Eq, PartialOrd, Ord, Hash)]
pub enum Rule {
    /// A class name is `Object` or declared.
    K1,
    /// No class is its own ancestor.
    K2,
    /// No field has the name of an inherited one.
    K3,
    /// A constructor takes all fields.
    K4,
    /// It passes the superclass's fields to `super`.
    K5,
    /// It assigns the class's own fields.
    K6,
    /// A method that overrides keeps parameter types and result.
    K7,
    /// A body has a subtype of the result.
    K8,
    /// No member of its kind and name stands before a field or a method.
    K9,
    /// A variable is `this` or a parameter.
    E1,
    /// A field that is accessed is there.
    E2,
    /// A method that is called is there.
    E3,
    /// A call has as many arguments as the method has parameters.
    E4,
    /// An argument of a call has a subtype of the parameter's type.
    E5,
    /// A `new` has as many arguments as the class has fields.
    E6,
    /// An argument of a `new` has a subtype of the field's type.
    E7,
    /// A cast goes up or down.
    E8,
}

impl Site {
    /// The same site over the names that stand here.
    pub fn as_ref(&self) -> SiteRef<'_>
        ensures { spec.site_ref_seen result ≡ self.now }
    {
        match self {
            Site::Model => SiteRef::Model,
            Site::Class(class) => SiteRef::Class(class),
            Site::Field(class, field, alt) => SiteRef::Field(class, field, *alt),
            Site::Ctor(class) => SiteRef::Ctor(class),
            Site::CtorParam(class, slot) => SiteRef::CtorParam(class, *slot),
            Site::SuperArg(class, slot) => SiteRef::SuperArg(class, *slot),
            Site::Assign(class, slot) => SiteRef::Assign(class, *slot),
            Site::Method(class, method, alt) => SiteRef::Method(class, method, *alt),
            Site::Param(class, method, alt, slot) => SiteRef::Param(class, method, *alt, *slot),
            Site::Node(class, method, alt, slot) => SiteRef::Node(class, method, *alt, *slot),
        }
    }

    /// The same site, in memory of its own.
    pub fn copy(&self, alloc: Global) -> Result<Site, AllocError>
        ensures { IfOk result (λ site. site ≡ self.now) }
    {
        self.as_ref().to_site(alloc)
    }
}

impl Rule {
    /// The rule's place in the order of the rules at one site: K1 to K9, then E1 to E8.
    pub fn rank(self) -> u8
        ensures { result ≡ rank self }
    {
        match self {
            Rule::K1 => 1,
            Rule::K2 => 2,
            Rule::K3 => 3,
            Rule::K4 => 4,
            Rule::K5 => 5,
            Rule::K6 => 6,
            Rule::K7 => 7,
            Rule::K8 => 8,
            Rule::K9 => 9,
            Rule::E1 => 10,
            Rule::E2 => 11,
            Rule::E3 => 12,
            Rule::E4 => 13,
            Rule::E5 => 14,
            Rule::E6 => 15,
            Rule::E7 => 16,
            Rule::E8 => 17,
        }
    }
}

impl fmt::Display for Site {
    ghost output = { λ site. Some (spec.site_text site) };

    fn fmt<W: fmt::Write>(&self, f: &mut fmt::Formatter<W>) -> fmt::Result {
        write!(f, "{}", self.as_ref())
    }
}
