//! The rules of a call.

ghost use Rattle.std.specs.Prelude.{◌≡◌, IfOk, List, length};
ghost use Rattle.std.specs.Option.{ForSome};
ghost use Rattle.cfj_model.specs.declared.expr.Expr.{Expr};
ghost use Rattle.cfj_model.specs.declared.expr.Expr.TheVariants as variant;
ghost use Rattle.plain_fj.specs.Found.{AreJudged, IsJudged};
ghost use Rattle.plain_fj.specs.declared.node_break.NodeBreak.{NodeBreak};

use crate::body::Body;
use crate::misfits::add_misfits;
use crate::node_break::{NodeBreak, note_node};
use crate::wanted::param_types;
use cfj_model::{Arg, Name, Rule};
use std::alloc::AllocError;

/// The type of a call, whose receiver and arguments are judged, if it has one. The call's own breaks are added.
pub fn at_call<'a>(
    body: &Body<'a, '_>,
    slot: u16,
    receiver: Option<&'a Name>,
    method: &Name,
    args: &[Arg],
    types: Option<Vec<&'a Name>>,
    breaks: &mut Vec<NodeBreak>,
) -> Result<Option<&'a Name>, AllocError>
    requires { ForSome types (λ ts. length ts.items ≡ length args.now) }
    ensures { IfOk result (λ found. (on : Expr) (before middle : List NodeBreak) → IsJudged body.now on receiver.entry before middle
        → AreJudged body.now args.now types.entry middle breaks.old.items → IsJudged body.now (variant.Call slot on method.now args.now) found before breaks.new.items) }
{
    let class = match receiver {
        Some(class) => class,
        None => return Ok(None),
    };
    let types = match types {
        Some(types) => types,
        None => return Ok(None),
    };
    let called = match body.table.method_of(class, method) {
        Some(called) => called,
        None => {
            note_node(breaks, slot, Rule::E3, true)?;
            return Ok(None);
        }
    };
    let wanted = param_types(body.alloc, called.params.slice())?;
    let given = types.as_slice();
    let wanted = wanted.as_slice();
    if given.len() != wanted.len() {
        note_node(breaks, slot, Rule::E4, true)?;
        return Ok(None);
    }
    if add_misfits(body, args, given, wanted, Rule::E5, breaks)? {
        return Ok(None);
    }
    Ok(Some(&called.result))
}
