//! The pairs that break in one variant, looked up by site and rule.

ghost use Rattle.std.specs.Prelude.{◌≡◌, ◌↔◌, IsTrue, IfOk};
ghost use Rattle.cfj_words.specs.Lists.{Has};
ghost use Rattle.plain_judge.specs.PairParts.{IsSetOf, pair_parts, seen_pair};

use crate::site_parts::{Parts, read_parts};
use cfj_model::{Rule, Site};
use indexmap::IndexSet;
use std::alloc::{AllocError, Global};
use std::marker::Model;

/// A pair of a site and a rule, by the parts of the site. The few rules of one site hash alike.
#[derive(Clone, Copy, PartialEq, Eq)]
#[derive_where(Hash)]
pub struct PairParts<'a> {
    /// The rule.
    #[derive_where(skip(Hash))]
    pub rule: Rule,
    /// The parts of the site.
    pub parts: Parts<'a>,
}

/// The pairs that break in a variant, with a look-up that doesn't go through them.
///
/// Contracts see it as the list of the pairs.
#[derive(Drop)]
pub struct Breaks<'a> {
    pairs: &'a [(Site, Rule)],
    by_parts: IndexSet<PairParts<'a>>,
}

impl<'a> Model for Breaks<'a> {
    ghost use Rattle.std.specs.Prelude.{List};
    ghost use Rattle.cfj_model.specs.Judging.{Pair};
    ghost use Rattle.plain_judge.specs.PairParts.{IsSetOf};

    ghost Value = { List Pair };

    ghost view = { λ b. b.pairs.now };

    ghost invariant = { λ b. IsSetOf b.pairs.now b.by_parts.keys };
}

impl<'a> PairParts<'a> {
    /// The parts of a pair.
    fn of(site: &'a Site, rule: Rule) -> PairParts<'a>
        ensures { seen_pair result ≡ pair_parts (site.now, rule) }
    {
        PairParts {
            rule,
            parts: read_parts(site),
        }
    }
}

/// The parts of these pairs, without those that are there already.
fn parts_of_pairs<'a>(
    alloc: Global,
    pairs: &'a [(Site, Rule)],
) -> Result<IndexSet<PairParts<'a>>, AllocError>
    ensures { IfOk result (λ set. IsSetOf pairs.now set.keys) }
{
    let mut set: IndexSet<PairParts<'a>> = IndexSet::new(alloc);
    'each: for pair in pairs {
        set.insert(PairParts::of(&pair.0, pair.1))?;
    }
    Ok(set)
}

impl<'a> Breaks<'a> {
    /// These pairs.
    pub fn of(alloc: Global, pairs: &'a [(Site, Rule)]) -> Result<Breaks<'a>, AllocError>
        ensures { IfOk result (λ breaks. breaks ≡ pairs.now) }
    {
        let by_parts = parts_of_pairs(alloc, pairs)?;
        Ok(Breaks { pairs, by_parts })
    }

    /// Whether the pair of the site and the rule is among them.
    pub fn has(&self, site: &Site, rule: Rule) -> bool
        ensures { IsTrue result ↔ Has self.now (site.now, rule) }
    {
        !self.pairs.is_empty() && self.by_parts.contains(&PairParts::of(site, rule))
    }
}
