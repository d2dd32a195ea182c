//! The values of features.

ghost use Rattle.std.specs.Prelude.{◌≡◌, ◌^◌, ◌<◌, ◌≤◌, ℕ, true, length, IsTrue, IsFalse, IfSome, IfNone, None};
ghost use Rattle.cfj_logic.specs.Selections.{is_on};
ghost use Rattle.cfj_logic.specs.UnitClauses.{value_of};
ghost use Rattle.clause_learning.specs.Decided.{IsValued};
ghost use Rattle.clause_learning.specs.Denials.{Gathers, IsDenial, is_value, marked_value};

use cfj_logic::{Clause, FeatureSet, Selection};

/// Whether the feature is marked and has this value.
fn is_marked_as(values: &[Option<bool>], marks: &[bool], feature: u8, on: bool) -> bool
    requires within { feature < length values.now }
    requires marks { length marks.now ≡ length values.now }
    ensures { result ≡ is_value on (marked_value marks.now values.now feature) }
{
    if !marks[feature as usize] {
        return false;
    }
    let value = values[feature as usize];
    match value {
        Some(value) => value == on,
        None => false,
    }
}

/// The marked features with this value.
fn marked_as(features: u8, values: &[Option<bool>], marks: &[bool], on: bool) -> FeatureSet
    requires few { features ≤ 128 }
    requires within { features ≤ length values.now }
    requires marks { length marks.now ≡ length values.now }
    ensures gathers { Gathers on result features (marked_value marks.now values.now) }
    ensures small { result < 2 ^ features }
{
    let mut set = FeatureSet::empty();
    for feature in 0..features {
        if is_marked_as(values, marks, feature, on) {
            set = set.with(feature);
        }
    }
    set
}

/// The clause that denies the values of the marked features.
pub(crate) fn denial(features: u8, values: &[Option<bool>], marks: &[bool]) -> Clause
    requires few { features ≤ 128 }
    requires within { features ≤ length values.now }
    requires marks { length marks.now ≡ length values.now }
    ensures { IsDenial features values.now marks.now result }
{
    let on = marked_as(features, values, marks, false);
    let off = marked_as(features, values, marks, true);
    Clause::of(on, off)
}

/// Whether the feature has a value.
fn has_value(values: &[Option<bool>], feature: u8) -> bool
    requires { feature < length values.now }
    ensures some { IsTrue result → IsValued values.now feature }
    ensures none { IsFalse result → value_of values.now feature ≡ None }
{
    let value = values[feature as usize];
    match value {
        Some(_) => true,
        None => false,
    }
}

/// The first feature without a value.
pub fn next_feature(features: u8, values: &[Option<bool>]) -> Option<u8>
    requires { features ≤ length values.now }
    ensures some { IfSome result (λ f. (f < features) × (value_of values.now f ≡ None) × ((x : ℕ) → x < f → IsValued values.now x)) }
    ensures none { IfNone result ((x : ℕ) → x < features → IsValued values.now x) }
{
    for feature in 0..features {
        if !has_value(values, feature) {
            return Some(feature);
        }
    }
    None
}

/// Whether the feature has the value `true`.
fn is_selected(values: &[Option<bool>], feature: u8) -> bool
    requires { feature < length values.now }
    ensures { result ≡ is_value true (value_of values.now feature) }
{
    let value = values[feature as usize];
    match value {
        Some(on) => on,
        None => false,
    }
}

/// The selection of the features with the value `true`.
pub fn selection_of(features: u8, values: &[Option<bool>]) -> Selection
    requires few { features ≤ 128 }
    requires within { features ≤ length values.now }
    ensures features { result.features ≡ features }
    ensures selected { (x : ℕ) → x < features → is_on result x ≡ is_value true (value_of values.now x) }
{
    let mut selection = Selection::none(features);
    for feature in 0..features {
        if is_selected(values, feature) {
            selection = selection.with(feature);
        }
    }
    selection
}
