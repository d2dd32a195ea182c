//! The rules of a `new`.

ghost use Rattle.std.specs.Prelude.{◌≡◌, IfOk, List, length};
ghost use Rattle.std.specs.Option.{ForSome};
ghost use Rattle.cfj_model.specs.declared.expr.Expr.TheVariants as variant;
ghost use Rattle.plain_fj.specs.Found.{AreJudged, IsJudged, IsNameJudged};
ghost use Rattle.plain_fj.specs.declared.node_break.NodeBreak.{NodeBreak};

use crate::body::Body;
use crate::misfits::add_misfits;
use crate::node_break::{NodeBreak, note_node};
use crate::wanted::field_types;
use cfj_model::{Arg, Name, Rule};
use std::alloc::AllocError;

/// The type of a `new`, whose class and arguments are judged, if it has one. Its other breaks are added.
pub fn at_new<'a>(
    body: &Body<'a, '_>,
    slot: u16,
    class: &'a Name,
    args: &[Arg],
    types: Option<Vec<&'a Name>>,
    breaks: &mut Vec<NodeBreak>,
) -> Result<Option<&'a Name>, AllocError>
    requires { ForSome types (λ ts. length ts.items ≡ length args.now) }
    ensures { IfOk result (λ found. (before middle : List NodeBreak) → IsNameJudged body.now slot class.now before middle
        → AreJudged body.now args.now types.entry middle breaks.old.items → IsJudged body.now (variant.New slot class.now args.now) found before breaks.new.items) }
{
    let types = match types {
        Some(types) => types,
        None => return Ok(None),
    };
    if !body.table.is_known(class) {
        return Ok(None);
    }
    let wanted = field_types(body.alloc, body.table.chain(class))?;
    let given = types.as_slice();
    let wanted = wanted.as_slice();
    if given.len() != wanted.len() {
        note_node(breaks, slot, Rule::E6, true)?;
        return Ok(None);
    }
    if add_misfits(body, args, given, wanted, Rule::E7, breaks)? {
        return Ok(None);
    }
    Ok(Some(class))
}
