//! The rules of variables, field accesses and casts.

ghost use Rattle.std.specs.Prelude.{◌≡◌, ◌||◌, IfOk, List};
ghost use Rattle.cfj_model.specs.LookUps.{is_subtype};
ghost use Rattle.cfj_model.specs.declared.expr.Expr.{Expr};
ghost use Rattle.cfj_model.specs.declared.expr.Expr.TheVariants as variant;
ghost use Rattle.plain_fj.specs.Found as found;
ghost use Rattle.plain_fj.specs.Found.{IsJudged, IsNameJudged};
ghost use Rattle.plain_fj.specs.declared.node_break.NodeBreak.{NodeBreak};

use crate::body::Body;
use crate::node_break::{NodeBreak, note_node};
use cfj_model::{Expr, Name, Rule};
use class_table::ClassTable;
use std::alloc::AllocError;

/// The slot of an expression's root.
pub fn slot_of(expr: &Expr) -> u16
    ensures { result ≡ found.slot_of expr.now }
{
    match expr {
        Expr::Var { slot, name: _ } => *slot,
        Expr::Get {
            slot,
            on: _,
            field: _,
        } => *slot,
        Expr::Call {
            slot,
            on: _,
            method: _,
            args: _,
        } => *slot,
        Expr::New {
            slot,
            class: _,
            args: _,
        } => *slot,
        Expr::Cast {
            slot,
            class: _,
            on: _,
        } => *slot,
    }
}

/// The type of a variable, if it has one. The break is added, if there is one.
pub fn at_variable<'a>(
    body: &Body<'a, '_>,
    slot: u16,
    name: &Name,
    breaks: &mut Vec<NodeBreak>,
) -> Result<Option<&'a Name>, AllocError>
    ensures { IfOk result (λ found. IsJudged body.now (variant.Var slot name.now) found breaks.old.items breaks.new.items) }
{
    match body.scope.type_of(name) {
        Some(of) => Ok(Some(of)),
        None => {
            note_node(breaks, slot, Rule::E1, true)?;
            Ok(None)
        }
    }
}

/// The type of a field access, whose receiver is judged, if it has one. The break is added, if there is one.
pub fn at_access<'a>(
    body: &Body<'a, '_>,
    slot: u16,
    receiver: Option<&'a Name>,
    field: &Name,
    breaks: &mut Vec<NodeBreak>,
) -> Result<Option<&'a Name>, AllocError>
    ensures { IfOk result (λ found. (on : Expr) (before : List NodeBreak) → IsJudged body.now on receiver.entry before breaks.old.items
        → IsJudged body.now (variant.Get slot on field.now) found before breaks.new.items) }
{
    let class = match receiver {
        Some(class) => class,
        None => return Ok(None),
    };
    match body.table.field_of(class, field) {
        Some(found) => Ok(Some(&found.of)),
        None => {
            note_node(breaks, slot, Rule::E2, true)?;
            Ok(None)
        }
    }
}

/// Whether one of two classes is a subtype of the other.
fn are_related(table: &ClassTable<'_>, one: &Name, other: &Name) -> bool
    ensures { result ≡ (is_subtype table.now one.now other.now || is_subtype table.now other.now one.now) }
{
    table.is_subtype(one, other) || table.is_subtype(other, one)
}

/// The type of a cast, whose class and operand are judged, if it has one. The break is added, if there is one.
pub fn at_cast<'a>(
    body: &Body<'a, '_>,
    slot: u16,
    class: &'a Name,
    operand: Option<&'a Name>,
    breaks: &mut Vec<NodeBreak>,
) -> Result<Option<&'a Name>, AllocError>
    ensures { IfOk result (λ found. (on : Expr) (before middle : List NodeBreak) → IsNameJudged body.now slot class.now before middle
        → IsJudged body.now on operand.entry middle breaks.old.items → IsJudged body.now (variant.Cast slot class.now on) found before breaks.new.items) }
{
    let from = match operand {
        Some(from) => from,
        None => return Ok(None),
    };
    if !body.table.is_known(class) {
        return Ok(None);
    }
    if are_related(body.table, from, class) {
        return Ok(Some(class));
    }
    note_node(breaks, slot, Rule::E8, true)?;
    Ok(None)
}
