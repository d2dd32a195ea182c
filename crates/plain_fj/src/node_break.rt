//! A rule that breaks at a node of an expression.

ghost use Rattle.std.specs.Prelude.{[], ◌∷◌, OnOk};
ghost use Rattle.plain_fj.specs.Breaking.{AddsAtNodes};

use cfj_model::Rule;
use std::alloc::AllocError;

/// A rule that breaks, and the slot of the node of an expression at which it does.
#[derive(Clone, Copy, Debug)]
pub struct NodeBreak {
    /// The node's slot.
    pub slot: u16,
    /// The rule.
    pub rule: Rule,
}

/// Adds a rule of a node to the breaks, where it breaks there.
pub fn note_node(
    breaks: &mut Vec<NodeBreak>,
    slot: u16,
    rule: Rule,
    is_broken: bool,
) -> Result<(), AllocError>
    ensures { OnOk result (AddsAtNodes breaks.old.items breaks.new.items ((slot, (rule, is_broken) ∷ []) ∷ [])) }
{
    if is_broken {
        breaks.push(NodeBreak { slot, rule })?;
    }
    Ok(())
}
