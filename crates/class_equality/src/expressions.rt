//! Expressions, by value.

ghost use Rattle.std.specs.Prelude.{◌≡◌, ◌↔◌, IsTrue};

use crate::same::Same;
use cfj_model::{Arg, Expr};

// Whether both expressions are the same, node by node: with the same slots, names, and marks at arguments.
#[cycle(same)]
fn same_expr(expr: &Expr, other: &Expr) -> bool
    ensures { IsTrue result ↔ (expr.now ≡ other.now) }
{
    match expr {
        Expr::Var { slot, name } => match other {
            Expr::Var {
                slot: other_slot,
                name: other_name,
            } => *slot == *other_slot && name == other_name,
            _ => false,
        },
        Expr::Get { slot, on, field } => match other {
            Expr::Get {
                slot: other_slot,
                on: other_on,
                field: other_field,
            } => *slot == *other_slot
                && field == other_field
                && same_expr(on.get(), other_on.get()),
            _ => false,
        },
        Expr::Call {
            slot,
            on,
            method,
            args,
        } => match other {
            Expr::Call {
                slot: other_slot,
                on: other_on,
                method: other_method,
                args: other_args,
            } => {
                *slot == *other_slot
                    && method == other_method
                    && same_expr(on.get(), other_on.get())
                    && same_args(args.slice(), other_args.slice())
            }
            _ => false,
        },
        Expr::New { slot, class, args } => match other {
            Expr::New {
                slot: other_slot,
                class: other_class,
                args: other_args,
            } => *slot == *other_slot
                && class == other_class
                && same_args(args.slice(), other_args.slice()),
            _ => false,
        },
        Expr::Cast { slot, class, on } => match other {
            Expr::Cast {
                slot: other_slot,
                class: other_class,
                on: other_on,
            } => *slot == *other_slot
                && class == other_class
                && same_expr(on.get(), other_on.get()),
            _ => false,
        },
    }
}

// Whether both lists have the same arguments, in order.
#[cycle(same)]
fn same_args(args: &[Arg], others: &[Arg]) -> bool
    ensures { IsTrue result ↔ (args.now ≡ others.now) }
{
    if args.len() != others.len() {
        return false;
    }
    'each: for place in 0..args.len() {
        let (arg, other) = (&args[place], &others[place]);
        if arg.colors != other.colors || !same_expr(&arg.expr, &other.expr) {
            return false;
        }
    }
    true
}

impl Same for Expr {
    fn same(&self, other: &Expr) -> bool {
        same_expr(self, other)
    }
}
