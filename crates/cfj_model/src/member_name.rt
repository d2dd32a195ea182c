//! The names of members.

ghost use Rattle.std.specs.Prelude.{◌≡◌, IfOk};
ghost use Rattle.cfj_model.specs.Sites as spec;

use crate::site_ref::SiteRef;
use cfj_words::Name;
use std::alloc::{AllocError, Global};

/// A field or a method of a class: the class, the member's name and its alt.
#[derive(Debug, Drop, PartialEq, Eq, PartialOrd, Ord, Hash)]
pub enum MemberName {
    /// A field of a class.
    Field(Name, Name, u16),
    /// A method of a class.
    Method(Name, Name, u16),
}

impl MemberName {
    /// The site that the member is at.
    pub fn site(&self) -> SiteRef<'_>
        ensures { spec.site_ref_seen result ≡ spec.member_site self.now }
    {
        match self {
            MemberName::Field(class, field, alt) => SiteRef::Field(class, field, *alt),
            MemberName::Method(class, method, alt) => SiteRef::Method(class, method, *alt),
        }
    }

    /// The same member, in memory of its own.
    pub fn copy(&self, alloc: Global) -> Result<MemberName, AllocError>
        ensures { IfOk result (λ member. member ≡ self.now) }
    {
        Ok(match self {
            MemberName::Field(class, field, alt) => {
                MemberName::Field(class.copy(alloc)?, field.copy(alloc)?, *alt)
            }
            MemberName::Method(class, method, alt) => {
                MemberName::Method(class.copy(alloc)?, method.copy(alloc)?, *alt)
            }
        })
    }
}
