//! Selections of a model's features.

ghost use Rattle.std.specs.Prelude.{◌≡◌, ℕ, ◌^◌, ◌<◌, ◌≤◌, ◌↔◌, IsTrue, IsBitSet, bit_or};
ghost use Rattle.cfj_logic.specs.Selections.{is_on};

use crate::feature_set::FeatureSet;
use std::marker::Model;

/// The features of a model that a variant takes.
///
/// Contracts see it as the model's number of features, and the number whose bits are the selected ones.
#[derive(Clone, Copy, Debug, PartialEq, Eq)]
pub struct Selection {
    features: u8,
    on: FeatureSet,
}

impl Model for Selection {
    ghost use Rattle.std.specs.Prelude.{◌<◌, ◌≤◌, ◌^◌};
    ghost use Rattle.cfj_logic.specs.Selections.{Chosen};

    ghost Value = { Chosen };

    ghost view = { λ s. record { features = s.features; on = s.on } };

    ghost inverse = { λ c. record { features = c.features; on = c.on } };

    ghost invariant = { λ s. (s.features ≤ 128) × (s.on < 2 ^ s.features) };
}

impl Selection {
    /// No feature of so many is selected.
    pub fn none(features: u8) -> Selection
        requires { features ≤ 128 }
        ensures { result ≡ record { features = features; on = 0 } }
    {
        Selection {
            features,
            on: FeatureSet::empty(),
        }
    }

    /// The selection with this feature too.
    pub fn with(self, feature: u8) -> Selection
        requires { feature < self.features }
        ensures { result ≡ record { features = self.features; on = bit_or self.on (2 ^ feature) } }
    {
        Selection {
            features: self.features,
            on: self.on.with(feature),
        }
    }

    /// Whether this feature is selected.
    pub fn has(&self, feature: u8) -> bool
        requires { feature < self.now.features }
        ensures selected { result ≡ is_on self.now feature }
        ensures bit { IsTrue result ↔ IsBitSet self.now.on feature }
    {
        self.on.has(feature)
    }

    /// The selected features.
    pub fn selected(&self) -> FeatureSet
        ensures set { result ≡ self.now.on }
    {
        self.on
    }

    /// The model's number of features.
    pub fn features(&self) -> u8
        ensures number { result ≡ self.now.features }
        ensures few { self.now.features ≤ 128 }
        ensures within { self.now.on < 2 ^ self.now.features }
    {
        self.features
    }
}
