//! References to the nodes of a project, and their paths as text.

ghost use Rattle.std.specs.Prelude.{◌≡◌, Some, IfOk};
ghost use Rattle.cfj_model.specs.Sites as spec;

use crate::site::Site;
use cfj_words::{Name, both};
use std::alloc::{AllocError, Global};
use std::fmt;

/// A node of a project, as `Site` has it, over names that stand elsewhere.
#[derive(Clone, Copy, Debug)]
pub enum SiteRef<'a> {
    /// The feature model.
    Model,
    /// A class.
    Class(&'a Name),
    /// A field of a class.
    Field(&'a Name, &'a Name, u16),
    /// The constructor of a class.
    Ctor(&'a Name),
    /// A parameter of the constructor.
    CtorParam(&'a Name, u16),
    /// A name that the constructor passes to `super`.
    SuperArg(&'a Name, u16),
    /// An assignment of the constructor.
    Assign(&'a Name, u16),
    /// A method of a class.
    Method(&'a Name, &'a Name, u16),
    /// A parameter of a method.
    Param(&'a Name, &'a Name, u16, u16),
    /// A node of a method's body.
    Node(&'a Name, &'a Name, u16, u16),
}

impl SiteRef<'_> {
    /// The site that this names, over names in memory of its own.
    pub fn to_site(self, alloc: Global) -> Result<Site, AllocError>
        ensures { IfOk result (λ site. site ≡ spec.site_ref_seen self.entry) }
    {
        match self {
            SiteRef::Model => Ok(Site::Model),
            SiteRef::Class(class) => Ok(Site::Class(class.copy(alloc)?)),
            SiteRef::Field(class, field, alt) => {
                let (class, field) = both(class.copy(alloc), field.copy(alloc))?;
                Ok(Site::Field(class, field, alt))
            }
            SiteRef::Ctor(class) => Ok(Site::Ctor(class.copy(alloc)?)),
            SiteRef::CtorParam(class, slot) => Ok(Site::CtorParam(class.copy(alloc)?, slot)),
            SiteRef::SuperArg(class, slot) => Ok(Site::SuperArg(class.copy(alloc)?, slot)),
            SiteRef::Assign(class, slot) => Ok(Site::Assign(class.copy(alloc)?, slot)),
            SiteRef::Method(class, method, alt) => {
                let (class, method) = both(class.copy(alloc), method.copy(alloc))?;
                Ok(Site::Method(class, method, alt))
            }
            SiteRef::Param(class, method, alt, slot) => {
                let (class, method) = both(class.copy(alloc), method.copy(alloc))?;
                Ok(Site::Param(class, method, alt, slot))
            }
            SiteRef::Node(class, method, alt, slot) => {
                let (class, method) = both(class.copy(alloc), method.copy(alloc))?;
                Ok(Site::Node(class, method, alt, slot))
            }
        }
    }
}

/// What stands behind a member's name: nothing for the first of its name, else `~` and its alt.
#[derive(Clone, Copy)]
struct Alt(u16);

impl fmt::Display for Alt {
    ghost output = { λ alt. Some (spec.alt_text alt.0) };

    fn fmt<W: fmt::Write>(&self, f: &mut fmt::Formatter<W>) -> fmt::Result {
        let Alt(alt) = *self;
        if alt == 0 {
            return Ok(());
        }
        write!(f, "~{alt}")
    }
}

impl fmt::Display for SiteRef<'_> {
    ghost output = { λ site. Some (spec.site_text (spec.site_ref_seen site)) };

    fn fmt<W: fmt::Write>(&self, f: &mut fmt::Formatter<W>) -> fmt::Result {
        match self {
            SiteRef::Model => write!(f, "*"),
            SiteRef::Class(class) => write!(f, "{}", class.text()),
            SiteRef::Field(class, field, alt) => {
                write!(f, "{}.{}{}", class.text(), field.text(), Alt(*alt))
            }
            SiteRef::Ctor(class) => write!(f, "{}.new", class.text()),
            SiteRef::CtorParam(class, slot) => write!(f, "{}.new({slot})", class.text()),
            SiteRef::SuperArg(class, slot) => write!(f, "{}.new.super({slot})", class.text()),
            SiteRef::Assign(class, slot) => write!(f, "{}.new.this({slot})", class.text()),
            SiteRef::Method(class, method, alt) => {
                write!(f, "{}.{}{}()", class.text(), method.text(), Alt(*alt))
            }
            SiteRef::Param(class, method, alt, slot) => {
                write!(f, "{}.{}{}({slot})", class.text(), method.text(), Alt(*alt))
            }
            SiteRef::Node(class, method, alt, slot) => {
                write!(
                    f,
                    "{}.{}{}()#{slot}",
                    class.text(),
                    method.text(),
                    Alt(*alt)
                )
            }
        }
    }
}
