//! The features that nodes are marked with.

ghost use Rattle.std.specs.Prelude.{◌≡◌, ◌<◌, ◌↔◌, IsTrue, IsBitSet};
ghost use Rattle.cfj_model.specs.Coloring as spec;
ghost use Rattle.cfj_model.specs.Projection.{is_present};

use cfj_logic::{FeatureSet, Selection};
use std::marker::Model;

/// What a node is marked with: features that it wants, as `@A`, and features that it doesn't want, as `@!A`.
///
/// The marks of one node have no feature on both sides. Those of a node and of the nodes round it together may: then no variant keeps
/// it. Contracts see it as the two sets.
#[derive(Clone, Copy, Debug, PartialEq, Eq)]
pub struct Colors {
    on: FeatureSet,
    off: FeatureSet,
}

impl Model for Colors {
    ghost use Rattle.cfj_logic.specs.Sides.{Sides};

    ghost Value = { Sides };

    ghost view = { λ c. record { on = c.on; off = c.off } };

    ghost inverse = { λ s. record { on = s.on; off = s.off } };
}

impl Colors {
    /// No mark.
    pub fn empty() -> Colors
        ensures { result ≡ spec.no_colors }
    {
        Colors {
            on: FeatureSet::empty(),
            off: FeatureSet::empty(),
        }
    }

    /// Whether there is no mark.
    pub fn is_empty(&self) -> bool
        ensures { result ≡ spec.is_unmarked self.now }
    {
        self.on.is_empty() && self.off.is_empty()
    }

    /// These marks and one more: of a feature that isn't wanted, where it is `off`, else of one that is.
    pub fn with(self, feature: u8, off: bool) -> Colors
        requires { feature < 128 }
        ensures { result ≡ spec.with_mark off feature self }
    {
        if off {
            Colors {
                on: self.on,
                off: self.off.with(feature),
            }
        } else {
            Colors {
                on: self.on.with(feature),
                off: self.off,
            }
        }
    }

    /// Whether this feature is marked so.
    pub fn has(&self, feature: u8, off: bool) -> bool
        requires { feature < 128 }
        ensures { result ≡ spec.has_mark off feature self.now }
    {
        if off {
            self.off.has(feature)
        } else {
            self.on.has(feature)
        }
    }

    /// Whether this feature is marked, as one that is wanted or as one that isn't.
    pub fn is_marked(&self, feature: u8) -> bool
        requires { feature < 128 }
        ensures { result ≡ spec.is_marked feature self.now }
    {
        self.on.has(feature) || self.off.has(feature)
    }

    /// The marks of both: those of a node and of the nodes round it are its presence.
    pub fn union(self, other: Colors) -> Colors
        ensures { result ≡ spec.union self other }
    {
        Colors {
            on: self.on.union(other.on),
            off: self.off.union(other.off),
        }
    }

    /// Whether every mark holds under a selection, so that a variant keeps what is marked so.
    pub fn is_kept_by(&self, selection: &Selection) -> bool
        ensures { result ≡ is_present selection.now self.now }
    {
        let selected = selection.selected();
        self.on.is_subset(&selected) && self.off.is_disjoint(&selected)
    }
}
