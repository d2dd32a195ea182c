//! Feature models.

ghost use Rattle.std.specs.Prelude.{◌≡◌, IfOk};

use cfj_logic::Formula;
use cfj_words::{Items, Name, copied_items};
use std::alloc::{AllocError, Global};

/// What marks there are.
#[derive(Clone, Copy, Debug, PartialEq, Eq)]
pub enum Format {
    /// Features that are wanted, as `@A`.
    One,
    /// Also features that aren't wanted, as `@!A`: the text of such a project starts with the line `format2;`.
    Two,
}

/// The features of a product line, and which selections of them are valid.
#[derive(Debug, Drop)]
pub struct FeatureModel {
    /// What marks there are.
    pub format: Format,
    /// The names, in declaration order; a feature's number is its place here.
    pub features: Items<Name>,
    /// What a valid selection makes true, over the features by their numbers.
    pub constraints: Items<Formula>,
}

impl FeatureModel {
    /// An equal model in memory of its own.
    ///
    /// # Errors
    ///
    /// There is no memory for it.
    pub fn copy(&self, alloc: Global) -> Result<FeatureModel, AllocError>
        ensures { IfOk result (λ model. model ≡ self.now) }
    {
        Ok(FeatureModel {
            format: self.format,
            features: copied_items(alloc, &self.features)?,
            constraints: copied_items(alloc, &self.constraints)?,
        })
    }
}
