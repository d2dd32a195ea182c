//! The method whose nodes are listed.

ghost use Rattle.std.specs.Prelude.{◌≡◌, ◌∷◌, ◌++◌, OnOk};
ghost use Rattle.cfj_model.specs.Judging.{insert_ranked, rank};
ghost use Rattle.plain_judge.specs.BodySites.{node_site};
ghost use Rattle.unit_facts.specs.Pairs.{pairs_at};

use crate::site_rules::{add, count_lower};
use cfj_model::{Name, Rule, Site, SiteRef};
use std::alloc::{AllocError, Global};

/// The method whose nodes are listed.
#[derive(Clone, Copy)]
pub struct Body<'a> {
    /// For the names of sites.
    pub alloc: Global,
    /// The class that declares the method.
    pub class: &'a Name,
    /// The method's name.
    pub method: &'a Name,
    /// How many methods of this name stand before it.
    pub alt: u16,
}

impl Body<'_> {
    /// Adds rules at the node of this slot, and behind them those that the node round it judges there.
    pub fn add(
        &self,
        pairs: &mut Vec<(Site, Rule)>,
        slot: u16,
        rules: &[Rule],
        more: &[Rule],
    ) -> Result<(), AllocError>
        ensures { OnOk result (pairs.new.items ≡ pairs.old.items ++ pairs_at (node_site self.now slot) (rules.now ++ more.now)) }
    {
        let site = SiteRef::Node(self.class, self.method, self.alt, slot);
        add(self.alloc, pairs, site, rules)?;
        add(self.alloc, pairs, site, more)
    }
    /// Adds two rules at the node of this slot, and in their order with the second those that the node round it judges there.
    pub fn add_among(
        &self,
        pairs: &mut Vec<(Site, Rule)>,
        slot: u16,
        first: Rule,
        own: Rule,
        more: &[Rule],
    ) -> Result<(), AllocError>
        ensures { OnOk result (pairs.new.items ≡ pairs.old.items ++ pairs_at (node_site self.now slot) (first ∷ insert_ranked rank own more.now)) }
    {
        let (lower, others) = more.split_at(count_lower(own, more));
        self.add(pairs, slot, &[first], lower)?;
        self.add(pairs, slot, &[own], others)
    }
}
