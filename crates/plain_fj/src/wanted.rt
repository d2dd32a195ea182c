//! The types that are wanted of arguments.

ghost use Rattle.std.specs.Prelude.{◌≡◌, IfOk, OnOk, ◌++◌, map};
ghost use Rattle.cfj_model.specs.LookUps.{fields_of};
ghost use Rattle.cfj_model.specs.Typing as typing;
ghost use Rattle.class_table.specs.ByName.{seen};
ghost use Rattle.plain_fj.specs.Found.{names};

use cfj_model::{Class, Field, Name, Param};
use std::alloc::{AllocError, Global};

/// The types of parameters.
pub fn param_types<'a>(alloc: Global, params: &'a [Param]) -> Result<Vec<&'a Name>, AllocError>
    ensures { IfOk result (λ types. names types.items ≡ typing.param_types params.now) }
{
    let mut types: Vec<&'a Name> = Vec::new(alloc);
    'each: for param in params {
        types.push(&param.of)?;
    }
    Ok(types)
}

/// The types of fields, behind those that are there.
fn push_types<'a>(types: &mut Vec<&'a Name>, fields: &'a [Field]) -> Result<(), AllocError>
    ensures { OnOk result (names types.new.items ≡ names types.old.items ++ map (λ f. f.of) fields.now) }
{
    'each: for field in fields {
        types.push(&field.of)?;
    }
    Ok(())
}

/// The types of all fields of a chain, the last class's first.
pub fn field_types<'a>(alloc: Global, chain: &[&'a Class]) -> Result<Vec<&'a Name>, AllocError>
    ensures { IfOk result (λ types. names types.items ≡ map (λ f. f.of) (fields_of (seen chain.now))) }
{
    let mut types: Vec<&'a Name> = Vec::new(alloc);
    let count = chain.len();
    'each: for step in 0..count {
        let class = chain[count - 1 - step];
        push_types(&mut types, class.fields.slice())?;
    }
    Ok(types)
}
