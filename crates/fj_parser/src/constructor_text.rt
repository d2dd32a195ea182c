//! The text of a constructor.

ghost use Rattle.std.specs.Prelude.{◌≡◌, ℕ, true, nat_le, length, IfOk, Err};
ghost use Rattle.cfj_model.specs.Coloring.{palette_of};
ghost use Rattle.cfj_model.specs.declared.class.Constructor.{Constructor};
ghost use Rattle.cfj_model.specs.Faults.{IsFirstFault};
ghost use Rattle.cfj_model.specs.Languages.{IsTextOf};
ghost use Rattle.cfj_model.specs.Numbered.{is_numbered_ctor};
ghost use Rattle.cfj_model.specs.ProductLines.{are_distinct, is_ctor, most_features};
ghost use Rattle.fj_parser.specs.Answers.{IsReadAs, IsRefusedAs};
ghost use Rattle.cfj_model.specs.PartLanguages.{constructors};

use crate::part::Part;
use crate::reading::read_text;
use crate::results::into_ctor;
use cfj_model::{Constructor, FaultKind, FeatureModel, Name, ParseFault};
use std::alloc::Global;

fn read_constructor<'a>(
    alloc: Global,
    text: &'a str,
    model: &'a FeatureModel,
    class: &'a Name,
) -> Result<Constructor, ParseFault>
    requires few { nat_le (length model.now.features) most_features ≡ true }
    requires distinct { are_distinct model.now.features ≡ true }
    ensures read { IfOk result (λ ctor. IsTextOf (constructors model.entry.now.format model.entry.now.features class.entry.now) text.entry.now ctor) }
    ensures fault { (at : ℕ) (kind : _) → result ≡ Err (ParseFault.At at kind) → IsFirstFault (constructors model.entry.now.format model.entry.now.features class.entry.now) text.entry.now at kind }
{
    let machine = read_text(alloc, Part::constructor(model, class), text)?;
    Ok(into_ctor(alloc, machine))
}

/// The constructor that a text stands for in the class of this name, or the text's first fault; marks name features of the model.
pub fn parse_constructor(
    alloc: Global,
    text: &str,
    model: &FeatureModel,
    class: &Name,
) -> Result<Constructor, ParseFault>
    requires few { nat_le (length model.now.features) most_features ≡ true }
    requires distinct { are_distinct model.now.features ≡ true }
    // What is read is the value of a text of the grammar, and every text of the grammar is read.
    ensures read { IfOk result (λ ctor. IsTextOf (constructors model.now.format model.now.features class.now) text.now ctor) }
    ensures only { (ctor : Constructor) → IsTextOf (constructors model.now.format model.now.features class.now) text.now ctor → IsReadAs ctor result }
    // A project keeps it, and it is numbered.
    ensures kept { IfOk result (λ ctor. is_ctor (palette_of model.now) ctor ≡ true) }
    ensures numbered { IfOk result (λ ctor. is_numbered_ctor ctor ≡ true) }
    // A fault is the first one, and every first fault is told.
    ensures fault { (at : ℕ) (kind : _) → result ≡ Err (ParseFault.At at kind) → IsFirstFault (constructors model.now.format model.now.features class.now) text.now at kind }
    ensures first { (at : ℕ) (kind : _) → IsFirstFault (constructors model.now.format model.now.features class.now) text.now at kind → IsRefusedAs at kind result }
{
    read_constructor(alloc, text, model, class)
}
