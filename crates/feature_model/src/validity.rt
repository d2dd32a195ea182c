//! Whether each constraint is true under a selection.

ghost use Rattle.std.specs.Prelude.{◌≡◌, true, length, IfErr, OnOk};
ghost use Rattle.std.specs.List.{list_all};
ghost use Rattle.cfj_logic.specs.Formulas.{is_over, truth};
ghost use Rattle.cfj_model.specs.ProductLines.{is_constraint};
ghost use Rattle.cfj_logic.specs.Validity.{IsValid, IsFirstFalse};

use cfj_model::{FeatureModel, Formula, Selection};

/// The number, from 0, of the first constraint that is false.
#[derive(Clone, Copy, Debug, PartialEq, Eq)]
pub struct Failing(pub usize);

/// Whether a selection of the model's features is valid: it makes each constraint true.
///
/// Fails with the first constraint that is false. No memory is taken; each node of the constraints is looked at once at most.
pub fn valid(model: &FeatureModel, selection: &Selection) -> Result<(), Failing>
    requires features { selection.now.features ≡ length model.now.features }
    requires constraints { list_all (is_constraint selection.now.features) model.now.constraints ≡ true }
    ensures valid { OnOk result (IsValid model.now.constraints selection.now) }
    ensures failing { IfErr result (λ failing. IsFirstFalse model.now.constraints selection.now failing.0) }
{
    'constraints: for (index, constraint) in model.constraints.slice().iter().enumerate() {
        if !holds(constraint, selection) {
            return Err(Failing(index));
        }
    }
    Ok(())
}

/// Whether a formula is true under a selection of the features that it is over.
fn holds(formula: &Formula, selection: &Selection) -> bool
    requires { is_over selection.now.features formula.now ≡ true }
    ensures { result ≡ truth selection.now formula.now }
{
    match formula {
        Formula::True => true,
        Formula::False => false,
        Formula::Feat(feature) => selection.has(*feature),
        Formula::Not(part) => !holds(part.get(), selection),
        Formula::And(left, right) => holds(left.get(), selection) && holds(right.get(), selection),
        Formula::Or(left, right) => holds(left.get(), selection) || holds(right.get(), selection),
        Formula::Implies(left, right) => {
            !holds(left.get(), selection) || holds(right.get(), selection)
        }
        Formula::Iff(left, right) => holds(left.get(), selection) == holds(right.get(), selection),
    }
}
