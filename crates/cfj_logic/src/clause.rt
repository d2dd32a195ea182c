//! Clauses over features.

ghost use Rattle.std.specs.Prelude.{◌≡◌, ℕ, ◌≤◌, bit_and};
ghost use Rattle.cfj_logic.specs.Sides.{is_empty, is_over, is_within};

use crate::feature_set::FeatureSet;
use std::marker::Model;

/// A clause over features: one of `on` is selected, or one of `off` isn't. No feature is in both sets.
///
/// Contracts see it as the two sets.
#[derive(Clone, Copy, Debug, PartialEq, Eq)]
pub struct Clause {
    on: FeatureSet,
    off: FeatureSet,
}

impl Model for Clause {
    ghost use Rattle.std.specs.Prelude.{◌≡◌, bit_and};
    ghost use Rattle.cfj_logic.specs.Sides.{Sides};

    ghost Value = { Sides };

    ghost view = { λ c. record { on = c.on; off = c.off } };

    ghost inverse = { λ s. record { on = s.on; off = s.off } };

    ghost invariant = { λ c. bit_and c.on c.off ≡ 0 };
}

impl Clause {
    /// The clause over these two sets, which share no feature.
    pub fn of(on: FeatureSet, off: FeatureSet) -> Clause
        requires { bit_and on off ≡ 0 }
        ensures { result ≡ record { on = on; off = off } }
    {
        Clause { on, off }
    }

    /// The features one of which may be selected.
    pub fn on(&self) -> FeatureSet
        ensures set { result ≡ self.now.on }
        ensures once { bit_and self.now.on self.now.off ≡ 0 }
    {
        self.on
    }

    /// The features one of which may be missing.
    pub fn off(&self) -> FeatureSet
        ensures set { result ≡ self.now.off }
        ensures once { bit_and self.now.on self.now.off ≡ 0 }
    {
        self.off
    }

    /// Whether all its features are below this number.
    pub fn is_over(&self, features: u8) -> bool
        requires { features ≤ 128 }
        ensures over { result ≡ is_over features self.now }
        ensures once { bit_and self.now.on self.now.off ≡ 0 }
    {
        self.on.is_below(features) && self.off.is_below(features)
    }

    /// Whether it has no literal.
    pub fn is_empty(&self) -> bool
        ensures { result ≡ is_empty self.now }
    {
        self.on.is_empty() && self.off.is_empty()
    }

    /// Whether each of its literals is one of the other clause too.
    pub fn is_within(&self, other: &Clause) -> bool
        ensures { result ≡ is_within self.now other.now }
    {
        self.on.is_subset(&other.on) && self.off.is_subset(&other.off)
    }
}
