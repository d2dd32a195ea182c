//! The text of an expression.

ghost use Rattle.std.specs.Prelude.{◌≡◌, ℕ, true, IfOk, Err};
ghost use Rattle.cfj_model.specs.Coloring.{Palette};
ghost use Rattle.cfj_model.specs.declared.expr.Expr.{Expr};
ghost use Rattle.cfj_model.specs.Expressions.{slots};
ghost use Rattle.cfj_model.specs.Faults.{IsFirstFault};
ghost use Rattle.cfj_model.specs.Languages.{IsTextOf};
ghost use Rattle.cfj_model.specs.Numbered.{run_from};
ghost use Rattle.cfj_model.specs.ProductLines.{is_body};
ghost use Rattle.fj_parser.specs.Answers.{IsReadAs, IsRefusedAs};
ghost use Rattle.cfj_model.specs.PartLanguages.{expressions};

use crate::goal::Goal;
use crate::only::only;
use crate::part::Part;
use crate::reading::read_text;
use crate::results::into_members;
use cfj_model::{Expr, FaultKind, ParseFault};
use std::alloc::Global;

fn read_expr<'a>(alloc: Global, text: &'a str) -> Result<Expr, ParseFault>
    ensures read { IfOk result (λ expr. IsTextOf expressions text.entry.now expr) }
    ensures fault { (at : ℕ) (kind : _) → result ≡ Err (ParseFault.At at kind) → IsFirstFault expressions text.entry.now at kind }
{
    let machine = read_text(alloc, Part::alone(Goal::Expression), text)?;
    Ok(only(into_members(alloc, machine).1).body)
}

/// The expression without marks that a text stands for, or the text's first fault.
pub fn parse_expr(alloc: Global, text: &str) -> Result<Expr, ParseFault>
    // What is read is the value of a text of the grammar, and every text of the grammar is read.
    ensures read { IfOk result (λ expr. IsTextOf expressions text.now expr) }
    ensures only { (expr : Expr) → IsTextOf expressions text.now expr → IsReadAs expr result }
    // A project of any features keeps it as a body, and it is numbered.
    ensures kept { IfOk result (λ expr. (palette : Palette) → is_body palette expr ≡ true) }
    ensures numbered { IfOk result (λ expr. run_from 0 (slots expr) ≡ true) }
    // A fault is the first one, and every first fault is told.
    ensures fault { (at : ℕ) (kind : _) → result ≡ Err (ParseFault.At at kind) → IsFirstFault expressions text.now at kind }
    ensures first { (at : ℕ) (kind : _) → IsFirstFault expressions text.now at kind → IsRefusedAs at kind result }
{
    read_expr(alloc, text)
}
