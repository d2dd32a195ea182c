//! Alts, found and written.

ghost use Rattle.std.specs.Prelude.{◌≡◌, OnOk, IfOk, length, map};
ghost use Rattle.cfj_model.specs.Members.{namesakes, numbered_fields, numbered_methods, placed};
ghost use Rattle.member_alts.specs.Numbers.{with_alts, with_namesakes};

use crate::counts::count;
use crate::member::Member;
use cfj_model::{Field, Method};
use indexmap::IndexMap;
use std::alloc::{AllocError, Global};

/// Gives each field of a class its alt: the number of the fields of its name before it.
///
/// # Errors
///
/// There is no memory for the look-up, or more than 65,536 fields have one name. A text has at most 64 in a class.
pub fn number_fields(alloc: Global, fields: &mut [Field]) -> Result<(), AllocError>
    ensures { OnOk result (fields.new ≡ numbered_fields fields.old) }
{
    number(alloc, fields)
}

/// Gives each method of a class its alt: the number of the methods of its name before it.
///
/// # Errors
///
/// There is no memory for the look-up, or more than 65,536 methods have one name. A text has at most 256 in a class.
pub fn number_methods(alloc: Global, methods: &mut [Method]) -> Result<(), AllocError>
    ensures { OnOk result (methods.new ≡ numbered_methods methods.old) }
{
    number(alloc, methods)
}

fn number<M: Member>(alloc: Global, members: &mut [M]) -> Result<(), AllocError>
    ensures { OnOk result (members.new ≡ with_namesakes M.name_of M.with_alt members.old) }
{
    let alts = alts_of(alloc, members)?;
    write_alts(members, &alts);
    Ok(())
}

/// How many of its name stand before each.
fn alts_of<M: Member>(alloc: Global, members: &[M]) -> Result<Vec<u16>, AllocError>
    ensures { IfOk result (λ alts. alts.items ≡ map (namesakes M.name_of) (placed members.now)) }
{
    let mut counts = IndexMap::with_capacity(alloc, members.len())?;
    let mut alts = Vec::with_capacity(alloc, members.len())?;
    for member in members {
        let alt = count(&mut counts, member.name())?;
        alts.push(alt)?;
    }
    Ok(alts)
}

fn write_alts<M: Member>(members: &mut [M], alts: &[u16])
    requires { length alts.now ≡ length members.old }
    ensures { members.new ≡ with_alts M.with_alt members.old alts.now }
{
    for (place, member) in members.iter_mut().enumerate() {
        member.set_alt(alts[place]);
    }
}
