//! Expressions.

ghost use Rattle.std.specs.Prelude.{◌≡◌, IfOk, sum_by, take};
ghost use Rattle.cfj_model.specs.Expressions as spec;
ghost use Rattle.cfj_model.specs.Sizes.{counted};

use crate::colors::Colors;
use cfj_words::{Boxed, Items, Name, both};
use std::alloc::{AllocError, Global};

/// An expression. The slots of a body number its nodes, which projection keeps.
#[cycle(expr)]
#[derive(Debug, Drop)]
pub enum Expr {
    /// `name`; `this` is a variable too.
    Var {
        slot: u16,
        name: Name,
    },
    /// `on.field`.
    Get {
        slot: u16,
        on: Boxed<Expr>,
        field: Name,
    },
    /// `on.method(args)`.
    Call {
        slot: u16,
        on: Boxed<Expr>,
        method: Name,
        args: Items<Arg>,
    },
    /// `new class(args)`.
    New {
        slot: u16,
        class: Name,
        args: Items<Arg>,
    },
    /// `(class) on`.
    Cast {
        slot: u16,
        class: Name,
        on: Boxed<Expr>,
    },
}

/// An argument of a call or of a `new`.
#[cycle(expr)]
#[derive(Debug, Drop)]
pub struct Arg {
    /// What it is marked with.
    pub colors: Colors,
    /// The expression.
    pub expr: Expr,
}

impl Expr {
    /// An equal expression in memory of its own.
    ///
    /// # Errors
    ///
    /// There is no memory for it.
    #[cycle(copy)]
    pub fn copy(&self, alloc: Global) -> Result<Expr, AllocError>
        ensures { IfOk result (λ e. e ≡ self.now) }
    {
        match self {
            Expr::Var { slot, name } => Ok(Expr::Var {
                slot: *slot,
                name: name.copy(alloc)?,
            }),
            Expr::Get { slot, on, field } => {
                let (on, field) = both(boxed_copy(alloc, on), field.copy(alloc))?;
                Ok(Expr::Get {
                    slot: *slot,
                    on,
                    field,
                })
            }
            Expr::Call {
                slot,
                on,
                method,
                args,
            } => {
                let sent = both(method.copy(alloc), copy_args(alloc, args.slice()));
                let (on, (method, args)) = both(boxed_copy(alloc, on), sent)?;
                Ok(Expr::Call {
                    slot: *slot,
                    on,
                    method,
                    args,
                })
            }
            Expr::New { slot, class, args } => {
                let (class, args) = both(class.copy(alloc), copy_args(alloc, args.slice()))?;
                Ok(Expr::New {
                    slot: *slot,
                    class,
                    args,
                })
            }
            Expr::Cast { slot, class, on } => {
                let (class, on) = both(class.copy(alloc), boxed_copy(alloc, on))?;
                Ok(Expr::Cast {
                    slot: *slot,
                    class,
                    on,
                })
            }
        }
    }

    /// The number of its nodes; the greatest `usize` where that is less.
    #[cycle(count)]
    pub fn node_count(&self) -> usize
        ensures { result ≡ counted (spec.node_count self.now) }
    {
        match self {
            Expr::Var { .. } => 1,
            Expr::Get { on, .. } => on.get().node_count().saturating_add(1),
            Expr::Call { on, args, .. } => {
                let on = on.get().node_count().saturating_add(1);
                on.saturating_add(args_node_count(args.slice()))
            }
            Expr::New { args, .. } => args_node_count(args.slice()).saturating_add(1),
            Expr::Cast { on, .. } => on.get().node_count().saturating_add(1),
        }
    }
}

// The nodes of all arguments.
#[cycle(count)]
fn args_node_count(args: &[Arg]) -> usize
    ensures { result ≡ counted (sum_by (λ a. spec.node_count a.expr) args.now) }
{
    let mut count = 0usize;
    'each: for arg in args {
        count = count.saturating_add(arg.expr.node_count());
    }
    count
}

#[cycle(copy)]
fn boxed_copy(alloc: Global, expr: &Boxed<Expr>) -> Result<Boxed<Expr>, AllocError>
    ensures { IfOk result (λ copy. copy ≡ expr.now) }
{
    Boxed::new(alloc, expr.get().copy(alloc)?)
}

impl Arg {
    /// An equal argument in memory of its own.
    ///
    /// # Errors
    ///
    /// There is no memory for it.
    #[cycle(copy)]
    pub fn copy(&self, alloc: Global) -> Result<Arg, AllocError>
        ensures { IfOk result (λ arg. arg ≡ self.now) }
    {
        Ok(Arg {
            colors: self.colors,
            expr: self.expr.copy(alloc)?,
        })
    }
}

#[cycle(copy)]
fn copy_args(alloc: Global, args: &[Arg]) -> Result<Items<Arg>, AllocError>
    ensures { IfOk result (λ list. list ≡ args.now) }
{
    let mut list = Vec::new(alloc);
    'each: for arg in args {
        list.push(arg.copy(alloc)?)?;
    }
    Ok(Items::of(list))
}
