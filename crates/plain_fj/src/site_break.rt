//! A rule that breaks at a site.

ghost use Rattle.std.specs.Prelude.{◌≡◌, [], ◌∷◌, IfOk, OnOk};
ghost use Rattle.cfj_model.specs.Judging.{judged_at};
ghost use Rattle.cfj_model.specs.Sites.{site_ref_seen};
ghost use Rattle.plain_fj.specs.Breaking.{Adds, told};

use cfj_model::{Rule, Site, SiteRef};
use std::alloc::{AllocError, Global};

/// A rule that breaks, and the site at which it does.
#[derive(Clone, Copy, Debug)]
pub struct Break<'a> {
    /// The node.
    pub site: SiteRef<'a>,
    /// The rule.
    pub rule: Rule,
}

impl Break<'_> {
    /// The same pair, in memory of its own.
    pub fn pair(&self, alloc: Global) -> Result<(Site, Rule), AllocError>
        ensures { IfOk result (λ pair. pair ≡ told self.now) }
    {
        let site = self.site.to_site(alloc)?;
        Ok((site, self.rule))
    }
}

/// Adds a rule of a site to the breaks, where it breaks there.
pub fn note<'a>(
    breaks: &mut Vec<Break<'a>>,
    site: SiteRef<'a>,
    rule: Rule,
    is_broken: bool,
) -> Result<(), AllocError>
    ensures { OnOk result (Adds breaks.old.items breaks.new.items (judged_at (site_ref_seen site.entry) ((rule, is_broken) ∷ []))) }
{
    if is_broken {
        breaks.push(Break { site, rule })?;
    }
    Ok(())
}
