//! Sets of features.

ghost use Rattle.std.specs.Prelude.{◌≡◌, ℕ, ◌^◌, ◌<◌, ◌↔◌, ◌≢◌, IsTrue, IsBitSet, bit_or, bit_and, ◌==◌, ◌≤◌, nat_lt};
ghost use Rattle.cfj_logic.specs.Selections.{has_bit, is_subset};

use std::marker::Model;

/// A set of feature numbers below 128, in one word.
///
/// Contracts see it as the number whose bits are its members.
#[derive(Clone, Copy, Debug, PartialEq, Eq)]
pub struct FeatureSet {
    bits: u128,
}

impl Model for FeatureSet {
    ghost use Rattle.std.specs.Prelude.{ℕ};

    ghost Value = { ℕ };

    ghost view = { λ s. s.bits };

    ghost inverse = { λ n. record { bits = n } };
}

impl FeatureSet {
    /// No feature.
    pub fn empty() -> FeatureSet
        ensures { result ≡ 0 }
    {
        FeatureSet { bits: 0 }
    }

    /// Whether it has no member.
    pub fn is_empty(&self) -> bool
        ensures { result ≡ (self.now == 0) }
    {
        self.bits == 0
    }

    /// The set with this feature too.
    pub fn with(self, feature: u8) -> FeatureSet
        requires { feature < 128 }
        ensures { result ≡ bit_or self (2 ^ feature) }
    {
        FeatureSet {
            bits: self.bits | (1 << feature),
        }
    }

    /// The members of both.
    pub fn union(self, other: FeatureSet) -> FeatureSet
        ensures { result ≡ bit_or self other }
    {
        FeatureSet {
            bits: self.bits | other.bits,
        }
    }

    /// Whether this feature is in the set.
    pub fn has(&self, feature: u8) -> bool
        requires { feature < 128 }
        ensures member { result ≡ has_bit self.now feature }
        ensures bit { IsTrue result ↔ IsBitSet self.now feature }
    {
        self.bits & (1 << feature) != 0
    }

    /// Whether each member is one of the other set too.
    pub fn is_subset(&self, other: &FeatureSet) -> bool
        ensures { result ≡ is_subset self.now other.now }
    {
        self.bits & other.bits == self.bits
    }

    /// Whether all members are below this number.
    pub fn is_below(&self, features: u8) -> bool
        requires { features ≤ 128 }
        ensures { result ≡ nat_lt self.now (2 ^ features) }
    {
        fits(self.bits, features)
    }

    /// Whether no member is one of the other set.
    pub fn is_disjoint(&self, other: &FeatureSet) -> bool
        ensures { result ≡ (bit_and self.now other.now == 0) }
    {
        self.bits & other.bits == 0
    }
}

/// Whether a number has at most so many bits.
fn fits(bits: u128, features: u8) -> bool
    requires { features ≤ 128 }
    ensures { result ≡ nat_lt bits (2 ^ features) }
{
    features == 128 || bits < 1 << features
}
