//! The rules at one site.

ghost use Rattle.std.specs.Prelude.{◌≡◌, ◌≤◌, ◌∷◌, ◌++◌, OnOk, drop, length, take};
ghost use Rattle.cfj_model.specs.Judging.{insert_ranked, rank};
ghost use Rattle.cfj_model.specs.Sites.{site_ref_seen};
ghost use Rattle.unit_facts.specs.Pairs.{pairs_at};

use cfj_model::{Rule, Site, SiteRef};
use std::alloc::{AllocError, Global};

/// Adds the rules at a site, in order.
pub fn add(
    alloc: Global,
    pairs: &mut Vec<(Site, Rule)>,
    site: SiteRef<'_>,
    rules: &[Rule],
) -> Result<(), AllocError>
    ensures { OnOk result (pairs.new.items ≡ pairs.old.items ++ pairs_at (site_ref_seen site.entry) rules.now) }
{
    'each: for rule in rules {
        pairs.push((site.to_site(alloc)?, *rule))?;
    }
    Ok(())
}

/// How many of these rules, which are in order, rank lower than this one.
pub fn count_lower(rule: Rule, others: &[Rule]) -> usize
    ensures within { result ≤ length others.now }
    ensures placed { insert_ranked rank rule others.now ≡ take result others.now ++ rule ∷ drop result others.now }
{
    'each: for place in 0..others.len() {
        if others[place].rank() >= rule.rank() {
            return place;
        }
    }
    others.len()
}
