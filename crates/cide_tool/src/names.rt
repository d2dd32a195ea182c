//! The features that a list of texts names.
ghost use Rattle.std.specs.Prelude.{◌≡◌, ℕ, ◌≤◌, List, ◌∷◌, ◌++◌, true, false, length, map, IfOk, IfErr};
ghost use Rattle.std.specs.List.{list_all};
ghost use Rattle.cfj_words.specs.Names.{is_among, is_short_identifier};
ghost use Rattle.cfj_model.specs.ProductLines.{are_distinct};
ghost use Rattle.feature_model.specs.NamedSelections.{IsSpelled, IsFirstBad};

use cfj_model::{FeatureModel, Name, Selection};
use feature_model::{NameFault, read_selection};
use std::alloc::{AllocError, Global};

/// The selection of the features with these names, or the first bad name. A text that can't be a name is no feature's.
pub fn read_names(
    alloc: Global,
    model: &FeatureModel,
    parts: &[&str],
) -> Result<Result<Selection, NameFault>, AllocError>
    requires few { length model.now.features ≤ 128 }
    requires distinct { are_distinct model.now.features ≡ true }
    requires named { list_all is_short_identifier model.now.features ≡ true }
    ensures spelled { IfOk result (λ read. IfOk read
        (IsSpelled model.now.features (map (λ part. part.now) parts.now))) }
    ensures fault { IfOk result (λ read. IfErr read
        (IsFirstBad model.now.features (map (λ part. part.now) parts.now))) }
{
    let mut names = Vec::new(alloc);
    'parts: for part in parts {
        match Name::of(alloc, part)? {
            Some(name) => names.push(name)?,
            None => return Ok(Err(first_bad(model, names.as_slice()))),
        }
    }
    Ok(read_selection(model, names.as_slice()))
}

// The first bad name, where the one behind these names is no feature's.
fn first_bad(model: &FeatureModel, names: &[Name]) -> NameFault
    requires few { length model.now.features ≤ 128 }
    requires distinct { are_distinct model.now.features ≡ true }
    ensures { (part : List ℕ) (rest : List (List ℕ)) → is_among model.now.features part ≡ false
        → IsFirstBad model.now.features (names.now ++ part ∷ rest) result }
{
    match read_selection(model, names) {
        Ok(_) => NameFault::NoFeature(names.len()),
        Err(fault) => fault,
    }
}
