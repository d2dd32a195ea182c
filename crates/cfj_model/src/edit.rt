//! Changes of a project that are asked for.

ghost use Rattle.std.specs.Prelude.{◌≡◌, IfOk};

use crate::member_name::MemberName;
use crate::signed::Signed;
use crate::site::Site;
use cfj_words::{Items, Name, Text, both, copied_items};
use std::alloc::{AllocError, Global};

/// A change of a project that is asked for. What is new in it is a text, which may turn out to be none of its kind.
#[derive(Debug, Drop)]
pub enum Edit {
    /// One more class, the last.
    AddClass {
        /// The class.
        text: Text,
    },
    /// A class goes.
    RemoveClass {
        /// Its name.
        class: Name,
    },
    /// One more member of a class, the last of its kind.
    AddMember {
        /// The name of the class.
        class: Name,
        /// The field or method.
        text: Text,
    },
    /// Another member of its kind in the place of one.
    ReplaceMember {
        /// The old member.
        member: MemberName,
        /// The new one, whose name may be another.
        text: Text,
    },
    /// A member goes.
    RemoveMember {
        /// The member.
        member: MemberName,
    },
    /// Another superclass.
    SetSuper {
        /// The name of the class.
        class: Name,
        /// The name of the superclass.
        text: Text,
    },
    /// Another constructor.
    SetConstructor {
        /// The name of the class.
        class: Name,
        /// The constructor.
        text: Text,
    },
    /// Other marks of a node.
    SetColors {
        /// The node.
        site: Site,
        /// Its marks; of those of one feature the first counts.
        marks: Items<Signed>,
    },
    /// Another feature model.
    SetModel {
        /// The model.
        text: Text,
    },
}

impl Edit {
    /// An equal edit in memory of its own.
    ///
    /// # Errors
    ///
    /// There is no memory for it.
    pub fn copy(&self, alloc: Global) -> Result<Edit, AllocError>
        ensures { IfOk result (λ edit. edit ≡ self.now) }
    {
        match self {
            Edit::AddClass { text } => Ok(Edit::AddClass {
                text: text.copy(alloc)?,
            }),
            Edit::RemoveClass { class } => Ok(Edit::RemoveClass {
                class: class.copy(alloc)?,
            }),
            Edit::AddMember { class, text } => {
                let (class, text) = both(class.copy(alloc), text.copy(alloc))?;
                Ok(Edit::AddMember { class, text })
            }
            Edit::ReplaceMember { member, text } => {
                let (member, text) = both(member.copy(alloc), text.copy(alloc))?;
                Ok(Edit::ReplaceMember { member, text })
            }
            Edit::RemoveMember { member } => Ok(Edit::RemoveMember {
                member: member.copy(alloc)?,
            }),
            Edit::SetSuper { class, text } => {
                let (class, text) = both(class.copy(alloc), text.copy(alloc))?;
                Ok(Edit::SetSuper { class, text })
            }
            Edit::SetConstructor { class, text } => {
                let (class, text) = both(class.copy(alloc), text.copy(alloc))?;
                Ok(Edit::SetConstructor { class, text })
            }
            Edit::SetColors { site, marks } => {
                let (site, marks) = both(site.copy(alloc), copied_items(alloc, marks))?;
                Ok(Edit::SetColors { site, marks })
            }
            Edit::SetModel { text } => Ok(Edit::SetModel {
                text: text.copy(alloc)?,
            }),
        }
    }
}
