//! The selection that names spell.

ghost use Rattle.std.specs.Prelude.{◌≡◌, ◌≤◌, true, false, Some, length, slice_get, IfOk, IfErr, IfSome, IfNone, position};
ghost use Rattle.std.specs.Str.{bytes_eq};
ghost use Rattle.cfj_model.specs.ProductLines.{are_distinct};
ghost use Rattle.cfj_words.specs.Names.{is_among};
ghost use Rattle.feature_model.specs.NamedSelections.{IsSpelled, IsFirstBad};

use cfj_model::{FeatureModel, Name, Selection};

/// Why names spell no selection, with the index of the first bad one.
#[derive(Clone, Copy, Debug, PartialEq, Eq)]
pub enum NameFault {
    /// The name isn't a feature's.
    NoFeature(usize),
    /// The name was named before.
    Twice(usize),
}

/// The selection of the features with these names.
///
/// Fails at the first name that isn't a feature's, or that was named before. No memory is taken. Each name that is read is
/// looked for among the features, and at most one more is read than there are features.
pub fn read_selection(model: &FeatureModel, names: &[Name]) -> Result<Selection, NameFault>
    requires few { length model.now.features ≤ 128 }
    requires distinct { are_distinct model.now.features ≡ true }
    ensures spelled { IfOk result (IsSpelled model.now.features names.now) }
    ensures fault { IfErr result (IsFirstBad model.now.features names.now) }
{
    let features = model.features.slice();
    let mut selection = Selection::none(features.len() as u8);
    'names: for (index, name) in names.iter().enumerate() {
        match number_of(features, name) {
            None => return Err(NameFault::NoFeature(index)),
            Some(feature) => {
                if selection.has(feature) {
                    return Err(NameFault::Twice(index));
                }
                selection = selection.with(feature);
            }
        }
    }
    Ok(selection)
}

// The number of the feature with this name.
fn number_of(features: &[Name], name: &Name) -> Option<u8>
    requires { length features.now ≤ 128 }
    ensures found { IfSome result (λ number. slice_get features.now number ≡ Some name.now) }
    ensures none { IfNone result (is_among features.now name.now ≡ false) }
{
    match place_of(features, name) {
        Some(place) => Some(place as u8),
        None => None,
    }
}

fn place_of(features: &[Name], name: &Name) -> Option<usize>
    ensures { result ≡ position (λ feature. bytes_eq feature name.now) features.now }
{
    let name = name.text();
    features.iter().position(|feature| feature.text() == name)
}
