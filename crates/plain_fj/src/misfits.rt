//! Arguments that have no subtype of what is wanted at their places.

ghost use Rattle.std.specs.Prelude.{◌≡◌, IfOk, OnOk, length, not, [], ◌∷◌};
ghost use Rattle.std.specs.List.{list_any};
ghost use Rattle.cfj_model.specs.Judging.{misfits};
ghost use Rattle.cfj_model.specs.LookUps.{is_subtype};
ghost use Rattle.plain_fj.specs.Breaking.{AddsAtNodes};
ghost use Rattle.plain_fj.specs.Found.{at_roots, names};

use crate::body::Body;
use crate::node_break::{NodeBreak, note_node};
use crate::nodes::slot_of;
use cfj_model::{Arg, Name, Rule};
use std::alloc::AllocError;

/// Whether an argument's type isn't a subtype of what is wanted there. Then the break of this rule at the argument is added.
fn add_misfit(
    body: &Body<'_, '_>,
    arg: &Arg,
    of: &Name,
    wanted: &Name,
    rule: Rule,
    breaks: &mut Vec<NodeBreak>,
) -> Result<bool, AllocError>
    ensures misfits { IfOk result (λ misfits. misfits ≡ not (is_subtype body.now.table.now of.now wanted.now)) }
    ensures added { OnOk result (AddsAtNodes breaks.old.items breaks.new.items
        (at_roots rule (arg.now ∷ []) (not (is_subtype body.now.table.now of.now wanted.now) ∷ []))) }
{
    if body.table.is_subtype(of, wanted) {
        return Ok(false);
    }
    note_node(breaks, slot_of(&arg.expr), rule, true)?;
    Ok(true)
}

/// Whether the type of some argument isn't a subtype of what is wanted at its place. The break of this rule at each such argument is
/// added.
pub fn add_misfits(
    body: &Body<'_, '_>,
    args: &[Arg],
    types: &[&Name],
    wanted: &[&Name],
    rule: Rule,
    breaks: &mut Vec<NodeBreak>,
) -> Result<bool, AllocError>
    requires as_many { length types.now ≡ length args.now }
    requires wanted { length types.now ≡ length wanted.now }
    ensures some { IfOk result (λ some. some ≡ list_any (λ b. b) (misfits body.now.table.now (names types.now) (names wanted.now))) }
    ensures added { OnOk result (AddsAtNodes breaks.old.items breaks.new.items
        (at_roots rule args.now (misfits body.now.table.now (names types.now) (names wanted.now)))) }
{
    let mut some = false;
    'each: for place in 0..types.len() {
        if add_misfit(
            body,
            &args[place],
            types[place],
            wanted[place],
            rule,
            breaks,
        )? {
            some = true;
        }
    }
    Ok(some)
}
