//! The clause that denies a selection.

ghost use Rattle.std.specs.Prelude.{◌≡◌};
ghost use Rattle.plain_judge.specs.Denials.{denial};

use cfj_model::{Clause, FeatureSet, Selection};

/// The clause that this selection alone makes false.
pub fn denial(selection: Selection) -> Clause
    ensures { result ≡ denial selection }
{
    let mut on = FeatureSet::empty();
    let mut off = FeatureSet::empty();
    'each: for feature in 0..selection.features() {
        if selection.has(feature) {
            off = off.with(feature);
        } else {
            on = on.with(feature);
        }
    }
    Clause::of(on, off)
}
