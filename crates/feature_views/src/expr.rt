//! The variant of an expression.

ghost use Rattle.std.specs.Prelude.{◌≡◌, IfOk};
ghost use Rattle.feature_views.specs.Selected as spec;

use cfj_model::{Arg, Boxed, Colors, Expr, Items, Selection};
use std::alloc::{AllocError, Global};

/// An expression with its selected arguments, which keep their slots and lose their colours.
#[cycle(selected)]
#[tactic(auto, using(crate::proofs::SelectedBodies::selected_call, crate::proofs::SelectedBodies::selected_new))]
pub fn selected_expr(alloc: Global, expr: &Expr, selection: &Selection) -> Result<Expr, AllocError>
    ensures { IfOk result (λ kept. kept ≡ spec.selected_expr selection.now expr.now) }
{
    match expr {
        Expr::Var { slot, name } => Ok(Expr::Var {
            slot: *slot,
            name: name.copy(alloc)?,
        }),
        Expr::Get { slot, on, field } => {
            let on = selected_expr(alloc, on.get(), selection)?;
            Ok(Expr::Get {
                slot: *slot,
                on: Boxed::new(alloc, on)?,
                field: field.copy(alloc)?,
            })
        }
        Expr::Call {
            slot,
            on,
            method,
            args,
        } => {
            let on = selected_expr(alloc, on.get(), selection)?;
            Ok(Expr::Call {
                slot: *slot,
                on: Boxed::new(alloc, on)?,
                method: method.copy(alloc)?,
                args: selected_args(alloc, args.slice(), selection)?,
            })
        }
        Expr::New { slot, class, args } => Ok(Expr::New {
            slot: *slot,
            class: class.copy(alloc)?,
            args: selected_args(alloc, args.slice(), selection)?,
        }),
        Expr::Cast { slot, class, on } => {
            let on = selected_expr(alloc, on.get(), selection)?;
            Ok(Expr::Cast {
                slot: *slot,
                class: class.copy(alloc)?,
                on: Boxed::new(alloc, on)?,
            })
        }
    }
}

// The arguments whose own marks all hold, in order, without their colours.
#[cycle(selected)]
fn selected_args(
    alloc: Global,
    args: &[Arg],
    selection: &Selection,
) -> Result<Items<Arg>, AllocError>
    ensures { IfOk result (λ kept. kept ≡ spec.selected_args selection.now args.now) }
{
    let mut kept = Vec::with_capacity(alloc, args.len())?;
    'each: for arg in args {
        if arg.colors.is_kept_by(selection) {
            kept.push(Arg {
                colors: Colors::empty(),
                expr: selected_expr(alloc, &arg.expr, selection)?,
            })?;
        }
    }
    Ok(Items::of(kept))
}
