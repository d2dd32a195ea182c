//! Where an edit changes a project.

ghost use Rattle.std.specs.Prelude.{◌≡◌, IfOk};
ghost use Rattle.std.specs.Option.{option_copied};
ghost use Rattle.edit_ops.specs.Spots as spec;

use cfj_model::{Edit, MemberName, Name, Site};
use cfj_words::both;
use std::alloc::{AllocError, Global};

/// Where an edit changes a project. Edits that were made at spots that meet may be in each other's way.
#[derive(Debug, Drop, PartialEq, Eq)]
pub enum Spot {
    /// The feature model.
    Model,
    /// A whole class.
    Class(Name),
    /// The colours and the superclass of a class.
    Heading(Name),
    /// The constructor of a class.
    Ctor(Name),
    /// The fields of one name in a class.
    Field(Name, Name),
    /// The methods of one name in a class.
    Method(Name, Name),
}

/// The spot of a member, whatever its alt.
fn member_spot(alloc: Global, member: &MemberName) -> Result<Spot, AllocError>
    ensures { IfOk result (λ spot. spot ≡ spec.member_spot member.now) }
{
    match member {
        MemberName::Field(class, field, _) => field_spot(alloc, class, field),
        MemberName::Method(class, method, _) => method_spot(alloc, class, method),
    }
}

fn field_spot(alloc: Global, class: &Name, field: &Name) -> Result<Spot, AllocError>
    ensures { IfOk result (λ spot. spot ≡ Spot.Field class.now field.now) }
{
    let (class, field) = both(class.copy(alloc), field.copy(alloc))?;
    Ok(Spot::Field(class, field))
}

fn method_spot(alloc: Global, class: &Name, method: &Name) -> Result<Spot, AllocError>
    ensures { IfOk result (λ spot. spot ≡ Spot.Method class.now method.now) }
{
    let (class, method) = both(class.copy(alloc), method.copy(alloc))?;
    Ok(Spot::Method(class, method))
}

/// Where other colours of a node change the project.
fn colors_spot(alloc: Global, site: &Site) -> Result<Spot, AllocError>
    ensures { IfOk result (λ spot. spot ≡ spec.colors_spot site.now) }
{
    match site {
        Site::Model => Ok(Spot::Model),
        Site::Class(class) => Ok(Spot::Heading(class.copy(alloc)?)),
        Site::Field(class, field, _) => field_spot(alloc, class, field),
        Site::Ctor(class)
        | Site::CtorParam(class, _)
        | Site::SuperArg(class, _)
        | Site::Assign(class, _) => Ok(Spot::Ctor(class.copy(alloc)?)),
        Site::Method(class, method, _)
        | Site::Param(class, method, _, _)
        | Site::Node(class, method, _, _) => method_spot(alloc, class, method),
    }
}

impl Spot {
    /// Where an edit that is judged changes the project, a member by its old name; `None` for a class or a member that is new, which
    /// stands in nobody's way.
    ///
    /// # Errors
    ///
    /// There is no memory for its names.
    pub fn of(alloc: Global, edit: &Edit) -> Result<Option<Spot>, AllocError>
        ensures { IfOk result (λ spot. spot ≡ spec.spot edit.now) }
    {
        match edit {
            Edit::AddClass { .. } | Edit::AddMember { .. } => Ok(None),
            Edit::RemoveClass { class } => Ok(Some(Spot::Class(class.copy(alloc)?))),
            Edit::ReplaceMember { member, .. } | Edit::RemoveMember { member } => {
                Ok(Some(member_spot(alloc, member)?))
            }
            Edit::SetSuper { class, .. } => Ok(Some(Spot::Heading(class.copy(alloc)?))),
            Edit::SetConstructor { class, .. } => Ok(Some(Spot::Ctor(class.copy(alloc)?))),
            Edit::SetColors { site, .. } => Ok(Some(colors_spot(alloc, site)?)),
            Edit::SetModel { .. } => Ok(Some(Spot::Model)),
        }
    }

    /// The class that it is or lies in.
    pub fn class(&self) -> Option<&Name>
        ensures { option_copied result ≡ spec.class_of self.now }
    {
        match self {
            Spot::Model => None,
            Spot::Class(class)
            | Spot::Heading(class)
            | Spot::Ctor(class)
            | Spot::Field(class, _)
            | Spot::Method(class, _) => Some(class),
        }
    }

    fn is_in(&self, class: &Name) -> bool
        ensures { result ≡ spec.is_in class.now (spec.class_of self.now) }
    {
        match self.class() {
            Some(own) => class == own,
            None => false,
        }
    }

    /// Whether two spots meet: they are equal, or one is a class and the other lies in it.
    pub fn meets(&self, other: &Spot) -> bool
        ensures { result ≡ spec.meet self.now other.now }
    {
        match (self, other) {
            (Spot::Class(class), _) => other.is_in(class),
            (_, Spot::Class(class)) => self.is_in(class),
            _ => self == other,
        }
    }
}
