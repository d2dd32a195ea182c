//! An expression by itself, in no method.

ghost use Rattle.std.specs.Prelude.{◌≡◌, ◌↔◌, true, is_some, [], IfOk, map};
ghost use Rattle.std.specs.Option.{option_copied};
ghost use Rattle.cfj_model.specs.Judging.{judged_alone};
ghost use Rattle.plain_fj.specs.Breaking.{broken_nodes, slot_rule};

use crate::body::{Body, Scope};
use crate::judge::judge;
use crate::node_break::NodeBreak;
use cfj_model::{Expr, Name};
use class_table::ClassTable;
use std::alloc::{AllocError, Global};

/// What is judged of an expression by itself.
#[derive(Debug, Drop)]
pub struct JudgedAlone<'a> {
    /// Its type, if it has one.
    pub of: Option<&'a Name>,
    /// The rules that break, each with the slot of its node: in the order of the text, and at one node in the order of the rules.
    pub breaks: Vec<NodeBreak>,
}

/// Judges an expression by itself, over the classes of a project: a variable has no type there, not even `this`. It has a type exactly
/// where no rule of Featherweight Java breaks in it (Igarashi, Pierce, Wadler, TOPLAS 23(3), 2001).
///
/// Colours play no part.
///
/// # Errors
///
/// There is no memory for the breaks, or for the types of arguments.
pub fn judge_alone<'a>(
    alloc: Global,
    table: &ClassTable<'a>,
    expr: &'a Expr,
) -> Result<JudgedAlone<'a>, AllocError>
    ensures typed { IfOk result (λ judged. option_copied judged.of ≡ (judged_alone table.now expr.now).type) }
    ensures breaks { IfOk result (λ judged. map slot_rule judged.breaks.items ≡ broken_nodes ((judged_alone table.now expr.now).rules [])) }
    ensures clear { IfOk result (λ judged. is_some judged.of ≡ true ↔ (judged.breaks.items ≡ [])) }
{
    let body = Body {
        alloc,
        table,
        scope: Scope::Nothing,
    };
    let mut breaks: Vec<NodeBreak> = Vec::new(alloc);
    let of = judge(&body, expr, &mut breaks)?;
    Ok(JudgedAlone { of, breaks })
}
