//! Lists of names, compared in order.

ghost use Rattle.std.specs.Prelude.{◌≡◌, IfOk, OnOk, ◌++◌, map};
ghost use Rattle.cfj_model.specs.Judging as spec;
ghost use Rattle.cfj_model.specs.LookUps.{fields_of};
ghost use Rattle.class_table.specs.ByName.{seen};
ghost use Rattle.plain_fj.specs.Found.{names};

use cfj_model::{Class, Field, Name, Param, Sent};
use std::alloc::{AllocError, Global};

/// Whether names are the same, in order.
pub fn are_same(some: &[&Name], others: &[&Name]) -> bool
    ensures { result ≡ spec.are_same (names some.now) (names others.now) }
{
    if some.len() != others.len() {
        return false;
    }
    'each: for place in 0..some.len() {
        if some[place].text() != others[place].text() {
            return false;
        }
    }
    true
}

/// The names of parameters.
pub fn param_names<'a>(alloc: Global, params: &'a [Param]) -> Result<Vec<&'a Name>, AllocError>
    ensures { IfOk result (λ found. names found.items ≡ map (λ p. p.name) params.now) }
{
    let mut found: Vec<&'a Name> = Vec::new(alloc);
    'each: for param in params {
        found.push(&param.name)?;
    }
    Ok(found)
}

/// The names that are passed to `super`, or assigned.
pub fn sent_names<'a>(alloc: Global, sents: &'a [Sent]) -> Result<Vec<&'a Name>, AllocError>
    ensures { IfOk result (λ found. names found.items ≡ map (λ s. s.name) sents.now) }
{
    let mut found: Vec<&'a Name> = Vec::new(alloc);
    'each: for sent in sents {
        found.push(&sent.name)?;
    }
    Ok(found)
}

/// The names of fields, behind those that are there.
pub fn push_names<'a>(found: &mut Vec<&'a Name>, fields: &'a [Field]) -> Result<(), AllocError>
    ensures { OnOk result (names found.new.items ≡ names found.old.items ++ map (λ f. f.name) fields.now) }
{
    'each: for field in fields {
        found.push(&field.name)?;
    }
    Ok(())
}

/// The names of all fields of a chain, the last class's first.
pub fn field_names<'a>(alloc: Global, chain: &[&'a Class]) -> Result<Vec<&'a Name>, AllocError>
    ensures { IfOk result (λ found. names found.items ≡ map (λ f. f.name) (fields_of (seen chain.now))) }
{
    let mut found: Vec<&'a Name> = Vec::new(alloc);
    let count = chain.len();
    'each: for step in 0..count {
        let class = chain[count - 1 - step];
        push_names(&mut found, class.fields.slice())?;
    }
    Ok(found)
}
