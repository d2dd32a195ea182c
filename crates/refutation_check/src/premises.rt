//! Clauses over features as literals, and the values to begin with.

ghost use Rattle.std.specs.Prelude.{◌≡◌, ◌<◌, ◌≤◌, [], ◌∷◌, ◌++◌, length, map, slice_get, slice_set, Some, IfOk};
ghost use Rattle.cfj_logic.specs.UnitClauses.{with_false};
ghost use Rattle.cfj_logic.specs.Selections.{choices};
ghost use Rattle.cfj_logic.specs.Logs.{AreBelow, literals, literal_if, assumed, fixed};

use cfj_logic::{Clause, Literal, Selection};
use cfj_words::Items;
use std::alloc::{AllocError, Global};

/// Puts a literal at the end of a list where a test is true.
fn push_if(list: &mut Vec<Literal>, test: bool, feature: u8, on: bool) -> Result<(), AllocError>
    ensures { IfOk result (λ _. list.new.items ≡ list.old.items ++ literal_if test feature on) }
{
    if test {
        list.push(Literal {
            var: feature as u64,
            on,
        })?;
    }
    Ok(())
}

/// The literals of a clause over features.
pub fn literals(alloc: Global, clause: &Clause) -> Result<Items<Literal>, AllocError>
    ensures { IfOk result (λ list. list ≡ literals clause.now) }
{
    let on = clause.on();
    let off = clause.off();
    let mut list = Vec::new(alloc);
    for feature in 0..128u8 {
        push_if(&mut list, on.has(feature), feature, true)?;
        push_if(&mut list, off.has(feature), feature, false)?;
    }
    Ok(Items::of(list))
}

/// Gives the literal's variable the other value.
fn make_false(values: &mut [Option<bool>], literal: Literal)
    requires { literal.var < length values.old }
    ensures { values.new ≡ with_false values.old literal }
{
    values[literal.var as usize] = Some(!literal.on);
}

/// The values in which all literals of a clause are false, and no other variable has a value.
pub(crate) fn assumed(
    alloc: Global,
    vars: u64,
    clause: &[Literal],
) -> Result<Vec<Option<bool>>, AllocError>
    requires { AreBelow vars clause.now }
    ensures { IfOk result (λ values. values.items ≡ assumed vars clause.now) }
{
    let mut values = vec![in alloc; None; vars as usize]?;
    for literal in clause {
        make_false(values.as_mut_slice(), *literal);
    }
    Ok(values)
}

/// The values in which the first variables have these values, and the others none.
pub(crate) fn fixed(
    alloc: Global,
    vars: u64,
    prefix: &[bool],
) -> Result<Vec<Option<bool>>, AllocError>
    requires { length prefix.now ≤ vars }
    ensures { IfOk result (λ values. values.items ≡ fixed vars prefix.now) }
{
    let mut values = vec![in alloc; None; vars as usize]?;
    for (var, value) in prefix.iter().enumerate() {
        values[var] = Some(*value);
    }
    Ok(values)
}

/// Whether each feature is selected, in order.
pub(crate) fn choices(alloc: Global, selection: &Selection) -> Result<Vec<bool>, AllocError>
    ensures { IfOk result (λ list. list.items ≡ choices selection.now) }
{
    let mut list = Vec::new(alloc);
    for feature in 0..selection.features() {
        list.push(selection.has(feature))?;
    }
    Ok(list)
}
