//! Constraints, with the fewest brackets.

ghost use Rattle.std.specs.Prelude.{◌≡◌, ℕ, List, true, length};
ghost use Rattle.std.specs.List.{list_all};
ghost use Rattle.cfj_logic.specs.Formulas.{is_over};
ghost use Rattle.cfj_model.specs.Print.{texts, operand_text, formula_text, constraint_text};
ghost use Rattle.cfj_model.specs.ProductLines.{is_constraint};
ghost use Rattle.fj_printer.specs.Adds.{Adds};
ghost use Rattle.fj_printer.specs.Parts.{shown_formula};

use crate::buffer::Buffer;
use crate::pieces::add_text;
use cfj_model::{Formula, Name};
use cide_io::{Failed, Sink};

/// Adds a line for each constraint.
pub fn constraint_lines<K: Sink>(
    buffer: &mut Buffer,
    sink: &mut K,
    features: &[Name],
    constraints: &[Formula],
) -> Result<(), Failed>
    requires { list_all (is_constraint (length features.now)) constraints.now ≡ true }
    ensures { Adds K.held K.name K.faults sink.old buffer.old sink.new buffer.new (texts (constraint_text features.now) constraints.now) result }
{
    'constraints: for item in constraints {
        constraint(buffer, sink, features, item)?;
    }
    Ok(())
}

fn constraint<K: Sink>(
    buffer: &mut Buffer,
    sink: &mut K,
    features: &[Name],
    constraint: &Formula,
) -> Result<(), Failed>
    requires { is_over (length features.now) constraint.now ≡ true }
    ensures { Adds K.held K.name K.faults sink.old buffer.old sink.new buffer.new (constraint_text features.now constraint.now) result }
{
    add_text(buffer, sink, "constraint ")?;
    formula(buffer, sink, features, constraint)?;
    add_text(buffer, sink, ";\n")
}

#[cycle(print)]
fn formula<K: Sink>(
    buffer: &mut Buffer,
    sink: &mut K,
    features: &[Name],
    formula: &Formula,
) -> Result<(), Failed>
    requires { is_over (length features.now) formula.now ≡ true }
    ensures { Adds K.held K.name K.faults sink.old buffer.old sink.new buffer.new (formula_text features.now formula.now) result }
{
    match formula {
        Formula::True => add_text(buffer, sink, "true"),
        Formula::False => add_text(buffer, sink, "false"),
        Formula::Feat(feature) => add_text(buffer, sink, features[*feature as usize].text()),
        Formula::Not(part) => {
            add_text(buffer, sink, "!")?;
            operand(buffer, sink, features, 5, part.get())
        }
        Formula::And(left, right) => {
            operand(buffer, sink, features, 4, left.get())?;
            add_text(buffer, sink, " & ")?;
            operand(buffer, sink, features, 5, right.get())
        }
        Formula::Or(left, right) => {
            operand(buffer, sink, features, 3, left.get())?;
            add_text(buffer, sink, " | ")?;
            operand(buffer, sink, features, 4, right.get())
        }
        Formula::Implies(left, right) => {
            operand(buffer, sink, features, 3, left.get())?;
            add_text(buffer, sink, " -> ")?;
            operand(buffer, sink, features, 2, right.get())
        }
        Formula::Iff(left, right) => {
            operand(buffer, sink, features, 1, left.get())?;
            add_text(buffer, sink, " <-> ")?;
            operand(buffer, sink, features, 2, right.get())
        }
    }
}

// Adds an operand, in brackets where it holds less tightly than it has to there.
#[cycle(print)]
fn operand<K: Sink>(
    buffer: &mut Buffer,
    sink: &mut K,
    features: &[Name],
    least: u8,
    operand: &Formula,
) -> Result<(), Failed>
    requires { is_over (length features.now) operand.now ≡ true }
    ensures { Adds K.held K.name K.faults sink.old buffer.old sink.new buffer.new (operand_text least (shown_formula features.now operand.now)) result }
{
    if level(operand) < least {
        add_text(buffer, sink, "(")?;
        formula(buffer, sink, features, operand)?;
        add_text(buffer, sink, ")")
    } else {
        formula(buffer, sink, features, operand)
    }
}

// How tightly a formula holds together: from 1 for `<->` to 4 for `&`, and 5 for what needs no brackets anywhere.
fn level(formula: &Formula) -> u8
    ensures { (features : List (List ℕ)) → result ≡ (shown_formula features formula.now).level }
{
    match formula {
        Formula::Iff(_, _) => 1,
        Formula::Implies(_, _) => 2,
        Formula::Or(_, _) => 3,
        Formula::And(_, _) => 4,
        Formula::True | Formula::False | Formula::Feat(_) | Formula::Not(_) => 5,
    }
}
