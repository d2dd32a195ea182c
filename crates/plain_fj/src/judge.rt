//! Expressions, node by node.

ghost use Rattle.std.specs.Prelude.{IfOk};
ghost use Rattle.plain_fj.specs.Found.{AreJudged, IsJudged};

use crate::body::Body;
use crate::calls::at_call;
use crate::news::at_new;
use crate::node_break::NodeBreak;
use crate::nodes::{at_access, at_cast, at_variable};
use cfj_model::{Arg, Expr, Name};
use std::alloc::AllocError;

/// The type of an expression, if it has one. The breaks at its nodes are added, in the order of the text.
///
/// # Errors
///
/// There is no memory for the breaks, or for the types of arguments.
#[cycle(judge)]
pub fn judge<'a>(
    body: &Body<'a, '_>,
    expr: &'a Expr,
    breaks: &mut Vec<NodeBreak>,
) -> Result<Option<&'a Name>, AllocError>
    ensures { IfOk result (λ found. IsJudged body.now expr.now found breaks.old.items breaks.new.items) }
{
    match expr {
        Expr::Var { slot, name } => at_variable(body, *slot, name, breaks),
        Expr::Get { slot, on, field } => {
            let receiver = judge(body, on.get(), breaks)?;
            at_access(body, *slot, receiver, field, breaks)
        }
        Expr::Call {
            slot,
            on,
            method,
            args,
        } => {
            let receiver = judge(body, on.get(), breaks)?;
            let args = args.slice();
            let types = judge_args(body, args, breaks)?;
            at_call(body, *slot, receiver, method, args, types, breaks)
        }
        Expr::New { slot, class, args } => {
            body.add_unknown(breaks, *slot, class)?;
            let args = args.slice();
            let types = judge_args(body, args, breaks)?;
            at_new(body, *slot, class, args, types, breaks)
        }
        Expr::Cast {
            slot,
            class: target,
            on,
        } => {
            body.add_unknown(breaks, *slot, target)?;
            let operand = judge(body, on.get(), breaks)?;
            at_cast(body, *slot, target, operand, breaks)
        }
    }
}

/// The types of arguments, if all have one. The breaks at their nodes are added.
#[cycle(judge)]
fn judge_args<'a>(
    body: &Body<'a, '_>,
    args: &'a [Arg],
    breaks: &mut Vec<NodeBreak>,
) -> Result<Option<Vec<&'a Name>>, AllocError>
    ensures { IfOk result (λ found. AreJudged body.now args.now found breaks.old.items breaks.new.items) }
{
    let mut types: Vec<&'a Name> = Vec::new(body.alloc);
    'each: for arg in args {
        if let Some(of) = judge(body, &arg.expr, breaks)? {
            types.push(of)?;
        }
    }
    if types.len() != args.len() {
        return Ok(None);
    }
    Ok(Some(types))
}
