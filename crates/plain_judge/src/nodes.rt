//! The rules at the nodes of an expression.

ghost use Rattle.std.specs.Prelude.{◌≡◌, ◌++◌, OnOk};
ghost use Rattle.plain_judge.specs.BodySites.{node_site};
ghost use Rattle.unit_facts.specs.Pairs.{arg_pairs, node_pairs};

use crate::body::Body;
use cfj_model::{Arg, Expr, Rule, Site};
use std::alloc::AllocError;

/// Adds the rules at the nodes of an expression. Among those of its root are the ones that the node round it judges there.
#[cycle(nodes)]
pub fn add_nodes(
    body: &Body<'_>,
    pairs: &mut Vec<(Site, Rule)>,
    expr: &Expr,
    more: &[Rule],
) -> Result<(), AllocError>
    ensures { OnOk result (pairs.new.items ≡ pairs.old.items ++ node_pairs (node_site body.now) expr.now more.now) }
{
    match expr {
        Expr::Var { slot, .. } => body.add(pairs, *slot, &[Rule::E1], more),
        Expr::Get { slot, on, .. } => {
            add_nodes(body, pairs, on.get(), &[])?;
            body.add(pairs, *slot, &[Rule::E2], more)
        }
        Expr::Call { slot, on, args, .. } => {
            add_nodes(body, pairs, on.get(), &[])?;
            body.add(pairs, *slot, &[Rule::E3, Rule::E4], more)?;
            add_args(body, pairs, args.slice(), Rule::E5)
        }
        Expr::New { slot, args, .. } => {
            body.add_among(pairs, *slot, Rule::K1, Rule::E6, more)?;
            add_args(body, pairs, args.slice(), Rule::E7)
        }
        Expr::Cast { slot, on, .. } => {
            body.add_among(pairs, *slot, Rule::K1, Rule::E8, more)?;
            add_nodes(body, pairs, on.get(), &[])
        }
    }
}

/// Adds the rules at the nodes of arguments. The call or `new` round them judges one rule more at each.
#[cycle(nodes)]
fn add_args(
    body: &Body<'_>,
    pairs: &mut Vec<(Site, Rule)>,
    args: &[Arg],
    rule: Rule,
) -> Result<(), AllocError>
    ensures { OnOk result (pairs.new.items ≡ pairs.old.items ++ arg_pairs (node_site body.now) rule args.now) }
{
    'each: for arg in args {
        add_nodes(body, pairs, &arg.expr, &[rule])?;
    }
    Ok(())
}
