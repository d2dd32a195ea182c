//! The text of a feature model.

ghost use Rattle.std.specs.Prelude.{◌≡◌, ℕ, IfOk, Err};
ghost use Rattle.cfj_model.specs.declared.feature_model.FeatureModel.{FeatureModel};
ghost use Rattle.cfj_model.specs.Faults.{IsFirstFault};
ghost use Rattle.cfj_model.specs.Languages.{IsTextOf};
ghost use Rattle.fj_parser.specs.Answers.{IsReadAs, IsRefusedAs};
ghost use Rattle.cfj_model.specs.PartLanguages.{models};
ghost use Rattle.cfj_model.specs.Parts.{IsModel};

use crate::goal::Goal;
use crate::part::Part;
use crate::reading::read_text;
use crate::results::into_parts;
use cfj_model::{FaultKind, FeatureModel, ParseFault};
use std::alloc::Global;

fn read_model<'a>(alloc: Global, text: &'a str) -> Result<FeatureModel, ParseFault>
    ensures read { IfOk result (λ model. IsTextOf models text.entry.now model) }
    ensures fault { (at : ℕ) (kind : _) → result ≡ Err (ParseFault.At at kind) → IsFirstFault models text.entry.now at kind }
{
    let machine = read_text(alloc, Part::alone(Goal::Model), text)?;
    let (model, _) = into_parts(alloc, machine);
    Ok(model)
}

/// The feature model that a text stands for, or the text's first fault.
pub fn parse_model(alloc: Global, text: &str) -> Result<FeatureModel, ParseFault>
    // What is read is the value of a text of the grammar, and every text of the grammar is read.
    ensures read { IfOk result (λ model. IsTextOf models text.now model) }
    ensures only { (model : FeatureModel) → IsTextOf models text.now model → IsReadAs model result }
    // A project keeps it.
    ensures kept { IfOk result (λ model. IsModel model) }
    // A fault is the first one, and every first fault is told.
    ensures fault { (at : ℕ) (kind : _) → result ≡ Err (ParseFault.At at kind) → IsFirstFault models text.now at kind }
    ensures first { (at : ℕ) (kind : _) → IsFirstFault models text.now at kind → IsRefusedAs at kind result }
{
    read_model(alloc, text)
}
