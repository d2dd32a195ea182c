//! Members of a class as fields and methods have them in common.

ghost use Rattle.std.specs.Prelude.{◌≡◌, ◌+◌, ◌<◌, IfOk, length, position};
ghost use Rattle.edit_ops.specs.Members as spec;
ghost use Rattle.edit_ops.specs.Members.{Kind};

use cfj_model::{Field, Method, Name};
use std::alloc::{AllocError, Global};
use std::mem;

/// A member of a class, which its alt tells apart from those of its name.
pub(crate) trait Numbered: Drop {
    ghost kind: { Kind Self };

    fn name(&self) -> &Name
        ensures { result.now ≡ kind.name_of self.now };

    fn alt(&self) -> u16
        ensures { result ≡ kind.alt_of self.now };

    fn set_alt(&mut self, alt: u16)
        ensures { self.new ≡ kind.with_alt self.old alt };
}

impl Numbered for Field {
    ghost kind = { spec.fields };

    fn name(&self) -> &Name {
        &self.name
    }

    fn alt(&self) -> u16 {
        self.alt
    }

    fn set_alt(&mut self, alt: u16) {
        self.alt = alt;
    }
}

impl Numbered for Method {
    ghost kind = { spec.methods };

    fn name(&self) -> &Name {
        &self.name
    }

    fn alt(&self) -> u16 {
        self.alt
    }

    fn set_alt(&mut self, alt: u16) {
        self.alt = alt;
    }
}

/// Numbers the members of this name in order, from 0.
fn renumber<M: Numbered>(members: &mut [M], name: &Name)
    requires { length members.old < 65536 }
    ensures { members.new ≡ spec.renumbered M.kind name.now members.old }
{
    let mut alt = 0u16;
    'each: for member in members.iter_mut() {
        if member.name() == name {
            member.set_alt(alt);
            alt += 1;
        }
    }
}

/// Whether a member has this name and alt.
fn is_member<M: Numbered>(member: &M, name: &Name, alt: u16) -> bool
    ensures { result ≡ spec.is_member M.kind name.now alt member.now }
{
    member.name() == name && member.alt() == alt
}

/// These members without the one of this name and alt, those of its name numbered anew.
pub(crate) fn without<M: Numbered>(members: Vec<M>, name: &Name, alt: u16) -> Vec<M>
    requires { length members.items < 65536 }
    ensures { result.items ≡ spec.removed M.kind name.now alt members.items }
{
    let mut members = members;
    members.retain(|member| !is_member(member, name, alt));
    renumber(&mut members, name);
    members
}

/// These members and one more, the last, those of its name numbered anew.
pub(crate) fn with_one<M: Numbered>(
    alloc: Global,
    members: Vec<M>,
    member: M,
) -> Result<Vec<M>, AllocError>
    requires { length members.items + 1 < 65536 }
    ensures { IfOk result (λ all. all.items ≡ spec.added M.kind member members.items) }
{
    let name = member.name().copy(alloc)?;
    let mut members = members;
    members.push(member)?;
    renumber(&mut members, &name);
    Ok(members)
}

/// The place of the member of this name and alt.
fn place_of<M: Numbered>(members: &[M], name: &Name, alt: u16) -> Option<usize>
    ensures { result ≡ position (spec.is_member M.kind name.now alt) members.now }
{
    members
        .iter()
        .position(|member| is_member(member, name, alt))
}

/// Puts a member in the place of the one of this name and alt.
fn put<M: Numbered>(members: &mut [M], name: &Name, alt: u16, member: M)
    ensures { members.new ≡ spec.put M.kind name.now alt member members.old }
{
    match place_of(members, name, alt) {
        Some(place) => members[place] = member,
        None => mem::drop(member),
    }
}

/// Puts a member, which has the new name, in the place of the one of this name and alt, and numbers those of both names anew.
fn replace<M: Numbered>(members: &mut [M], name: &Name, alt: u16, member: M, new_name: &Name)
    requires few { length members.old < 65536 }
    requires named { new_name.now ≡ M.kind.name_of member }
    ensures { members.new ≡ spec.replaced M.kind name.now alt member members.old }
{
    put(members, name, alt, member);
    renumber(members, name);
    renumber(members, new_name);
}

/// These members with another in the place of the one of this name and alt, those of both names numbered anew.
pub(crate) fn with_another<M: Numbered>(
    alloc: Global,
    members: Vec<M>,
    name: &Name,
    alt: u16,
    member: M,
) -> Result<Vec<M>, AllocError>
    requires { length members.items < 65536 }
    ensures { IfOk result (λ all. all.items ≡ spec.replaced M.kind name.now alt member members.items) }
{
    let new_name = member.name().copy(alloc)?;
    let mut members = members;
    replace(&mut members, name, alt, member, &new_name);
    Ok(members)
}
