//! Expressions.

ghost use Rattle.std.specs.Prelude.{◌≡◌, ◌≤◌, ℕ, List, ◌++◌, length};
ghost use Rattle.cfj_model.specs.Print.{joined, expr_text, receiver_text};
ghost use Rattle.fj_printer.specs.Adds.{Adds};
ghost use Rattle.fj_printer.specs.Parts.{shown};
ghost use Rattle.fj_printer.specs.Shown.{names, shown_args, shown_expr, shown_arg_text};

use crate::buffer::Buffer;
use crate::marks::marks;
use crate::pieces::{add_all, add_text};
use crate::showing::Showing;
use cfj_model::{Arg, Expr, Name};
use cide_io::{Failed, Sink};

/// Adds an expression, with the marks that its arguments have of these features.
///
/// # Errors
///
/// The sink failed.
pub fn add_expr<K: Sink>(
    buffer: &mut Buffer,
    sink: &mut K,
    features: &[Name],
    item: &Expr,
) -> Result<(), Failed>
    requires { length features.now ≤ 128 }
    ensures { Adds K.held K.name K.faults sink.old buffer.old sink.new buffer.new (expr_text features.now item.now) result }
{
    let showing = Showing::Marked(features);
    expr(buffer, sink, &showing, item)
}

/// Adds an expression.
#[cycle(print)]
pub fn expr<K: Sink>(
    buffer: &mut Buffer,
    sink: &mut K,
    showing: &Showing<'_>,
    expr: &Expr,
) -> Result<(), Failed>
    requires { length (names showing.now) ≤ 128 }
    ensures { Adds K.held K.name K.faults sink.old buffer.old sink.new buffer.new (expr_text (names showing.now) (shown_expr showing.now expr.now)) result }
{
    match expr {
        Expr::Var { name, .. } => add_text(buffer, sink, name.text()),
        Expr::Get { on, field, .. } => {
            receiver(buffer, sink, showing, on.get())?;
            add_all(buffer, sink, &[".", field.text()])
        }
        Expr::Call {
            on,
            method,
            args,
            ..
        } => {
            receiver(buffer, sink, showing, on.get())?;
            add_all(buffer, sink, &[".", method.text(), "("])?;
            arguments(buffer, sink, showing, args.slice())?;
            add_text(buffer, sink, ")")
        }
        Expr::New { class, args, .. } => {
            add_all(buffer, sink, &["new ", class.text(), "("])?;
            arguments(buffer, sink, showing, args.slice())?;
            add_text(buffer, sink, ")")
        }
        Expr::Cast { class, on, .. } => {
            add_all(buffer, sink, &["(", class.text(), ") "])?;
            self::expr(buffer, sink, showing, on.get())
        }
    }
}

// Adds what stands before a dot. A cast needs brackets there.
#[cycle(print)]
fn receiver<K: Sink>(
    buffer: &mut Buffer,
    sink: &mut K,
    showing: &Showing<'_>,
    on: &Expr,
) -> Result<(), Failed>
    requires { length (names showing.now) ≤ 128 }
    ensures { Adds K.held K.name K.faults sink.old buffer.old sink.new buffer.new (receiver_text (shown (names showing.now) (shown_expr showing.now on.now))) result }
{
    if is_cast(on) {
        add_text(buffer, sink, "(")?;
        expr(buffer, sink, showing, on)?;
        add_text(buffer, sink, ")")
    } else {
        expr(buffer, sink, showing, on)
    }
}

fn is_cast(expr: &Expr) -> bool
    ensures { (features : List (List ℕ)) → result ≡ (shown features expr.now).is_cast }
{
    match expr {
        Expr::Cast { .. } => true,
        Expr::Var { .. } | Expr::Get { .. } | Expr::Call { .. } | Expr::New { .. } => false,
    }
}

#[cycle(print)]
fn arguments<K: Sink>(
    buffer: &mut Buffer,
    sink: &mut K,
    showing: &Showing<'_>,
    args: &[Arg],
) -> Result<(), Failed>
    requires { length (names showing.now) ≤ 128 }
    ensures { Adds K.held K.name K.faults sink.old buffer.old sink.new buffer.new (joined (shown_arg_text showing.now) (shown_args showing.now args.now)) result }
{
    let mut separator = "";
    'each: for item in args {
        if showing.shows(item.colors) {
            argument(buffer, sink, showing, separator, item)?;
            separator = ", ";
        }
    }
    Ok(())
}

#[cycle(print)]
fn argument<K: Sink>(
    buffer: &mut Buffer,
    sink: &mut K,
    showing: &Showing<'_>,
    separator: &str,
    arg: &Arg,
) -> Result<(), Failed>
    requires { length (names showing.now) ≤ 128 }
    ensures { Adds K.held K.name K.faults sink.old buffer.old sink.new buffer.new (separator.now ++ shown_arg_text showing.now arg.now) result }
{
    add_text(buffer, sink, separator)?;
    marks(buffer, sink, showing, arg.colors)?;
    expr(buffer, sink, showing, &arg.expr)
}
