//! What is found of a pair, and of a feature model.

ghost use Rattle.std.specs.Prelude.{◌≡◌};
ghost use Rattle.unit_facts.specs.Diagnostics.{is_broken};

use cfj_model::{Log, Rule, Selection, Site};

/// What is found of a pair of a site and a rule.
#[derive(Debug, Drop)]
pub enum Entry {
    /// The rule breaks at the site in the variant of this selection, which is the least valid one of which that is so.
    Broken {
        site: Site,
        rule: Rule,
        selection: Selection,
    },
    /// The budget is spent: this log denies selections that are no answer, and as many clauses as the budget allows didn't do.
    Undecided {
        site: Site,
        rule: Rule,
        log: Log,
    },
}

impl Entry {
    /// Whether the rule breaks.
    pub fn is_broken(&self) -> bool
        ensures { result ≡ is_broken self.now }
    {
        matches!(self, Entry::Broken { .. })
    }
}

/// What is found of a feature model.
#[derive(Debug, Drop)]
pub enum Verdict {
    /// This is the least valid selection.
    Valid(Selection),
    /// No selection is valid, and the log has the empty clause.
    Void(Log),
    /// The budget is spent.
    Unknown(Log),
}
