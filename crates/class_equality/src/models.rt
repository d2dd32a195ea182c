//! Feature models, by value.

ghost use Rattle.std.specs.Prelude.{◌≡◌, ◌↔◌, IsTrue};

use crate::same::{Same, same_items};
use cfj_logic::Formula;
use cfj_model::FeatureModel;

// Whether both formulas are the same tree. Two that are equivalent and written differently aren't.
fn same_formula(formula: &Formula, other: &Formula) -> bool
    ensures { IsTrue result ↔ (formula.now ≡ other.now) }
{
    match formula {
        Formula::True => matches!(other, Formula::True),
        Formula::False => matches!(other, Formula::False),
        Formula::Feat(feature) => match other {
            Formula::Feat(other_feature) => *feature == *other_feature,
            _ => false,
        },
        Formula::Not(part) => match other {
            Formula::Not(other_part) => same_formula(part.get(), other_part.get()),
            _ => false,
        },
        Formula::And(left, right) => match other {
            Formula::And(other_left, other_right) => {
                same_formula(left.get(), other_left.get())
                    && same_formula(right.get(), other_right.get())
            }
            _ => false,
        },
        Formula::Or(left, right) => match other {
            Formula::Or(other_left, other_right) => {
                same_formula(left.get(), other_left.get())
                    && same_formula(right.get(), other_right.get())
            }
            _ => false,
        },
        Formula::Implies(left, right) => match other {
            Formula::Implies(other_left, other_right) => {
                same_formula(left.get(), other_left.get())
                    && same_formula(right.get(), other_right.get())
            }
            _ => false,
        },
        Formula::Iff(left, right) => match other {
            Formula::Iff(other_left, other_right) => {
                same_formula(left.get(), other_left.get())
                    && same_formula(right.get(), other_right.get())
            }
            _ => false,
        },
    }
}

impl Same for Formula {
    fn same(&self, other: &Formula) -> bool {
        same_formula(self, other)
    }
}

impl Same for FeatureModel {
    fn same(&self, other: &FeatureModel) -> bool {
        self.format == other.format
            && same_items(self.features.slice(), other.features.slice())
            && same_items(self.constraints.slice(), other.constraints.slice())
    }
}
