//! The text of a class.

ghost use Rattle.std.specs.Prelude.{◌≡◌, ℕ, true, nat_le, length, IfOk, Err};
ghost use Rattle.cfj_model.specs.Coloring.{palette_of};
ghost use Rattle.cfj_model.specs.declared.class.Class.{Class};
ghost use Rattle.cfj_model.specs.Faults.{IsFirstFault};
ghost use Rattle.cfj_model.specs.Languages.{single_classes, IsTextOf};
ghost use Rattle.cfj_model.specs.Numbered.{is_numbered_class};
ghost use Rattle.cfj_model.specs.ProductLines.{are_distinct, class_size, is_class, most_features, most_size};
ghost use Rattle.fj_parser.specs.Answers.{IsReadAs, IsRefusedAs};

use crate::goal::Goal;
use crate::only::only;
use crate::part::Part;
use crate::reading::read_text;
use crate::results::into_classes;
use cfj_model::{Class, FaultKind, FeatureModel, ParseFault};
use std::alloc::Global;

fn read_class<'a>(
    alloc: Global,
    text: &'a str,
    model: &'a FeatureModel,
) -> Result<Class, ParseFault>
    requires few { nat_le (length model.now.features) most_features ≡ true }
    requires distinct { are_distinct model.now.features ≡ true }
    ensures read { IfOk result (λ class. IsTextOf (single_classes model.entry.now.format model.entry.now.features) text.entry.now class) }
    ensures fault { (at : ℕ) (kind : _) → result ≡ Err (ParseFault.At at kind) → IsFirstFault (single_classes model.entry.now.format model.entry.now.features) text.entry.now at kind }
{
    let machine = read_text(alloc, Part::under(Goal::Class, model), text)?;
    Ok(only(into_classes(alloc, machine)))
}

/// The class that a text stands for, or the text's first fault; marks name features of the model.
pub fn parse_class(alloc: Global, text: &str, model: &FeatureModel) -> Result<Class, ParseFault>
    requires few { nat_le (length model.now.features) most_features ≡ true }
    requires distinct { are_distinct model.now.features ≡ true }
    // What is read is the value of a text of the grammar, and every text of the grammar is read.
    ensures read { IfOk result (λ class. IsTextOf (single_classes model.now.format model.now.features) text.now class) }
    ensures only { (class : Class) → IsTextOf (single_classes model.now.format model.now.features) text.now class → IsReadAs class result }
    // A project keeps it, it fits, and it is numbered.
    ensures kept { IfOk result (λ class. is_class (palette_of model.now) class ≡ true) }
    ensures fits { IfOk result (λ class. nat_le (class_size class) most_size ≡ true) }
    ensures numbered { IfOk result (λ class. is_numbered_class class ≡ true) }
    // A fault is the first one, and every first fault is told.
    ensures fault { (at : ℕ) (kind : _) → result ≡ Err (ParseFault.At at kind) → IsFirstFault (single_classes model.now.format model.now.features) text.now at kind }
    ensures first { (at : ℕ) (kind : _) → IsFirstFault (single_classes model.now.format model.now.features) text.now at kind → IsRefusedAs at kind result }
{
    read_class(alloc, text, model)
}
