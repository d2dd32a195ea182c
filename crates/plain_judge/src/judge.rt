//! The check of a product line.

ghost use Rattle.std.specs.Prelude.{◌≡◌, ◌^◌, ◌≤◌, nat_lt, IfOk, length};
ghost use Rattle.unit_facts.specs.Diagnostics.{IsChecked};
ghost use Rattle.plain_judge.specs.Concluding.{IsDone};

use crate::entries::{entries_of, verdict_of};
use crate::search::Search;
use cfj_model::{Items, Project};
use std::alloc::{AllocError, Global};
use unit_facts::{Entry, Verdict};

/// What is found of a product line.
#[derive(Debug, Drop)]
pub struct Findings {
    /// Of its feature model.
    pub verdict: Verdict,
    /// Of its pairs of a site and a rule, in their order.
    pub entries: Items<Entry>,
}

/// Whether so many features have more selections than the budget allows to try.
fn is_limited(features: u8, budget: u32) -> bool
    requires { budget ≤ 20000 }
    ensures { result ≡ nat_lt budget (2 ^ features) }
{
    features >= 15 || budget < 1 << features
}

/// Tries the first selections in order: so many, if something is left to be found till then.
fn search_first(alloc: Global, project: &Project, most: u32) -> Result<Search, AllocError>
    requires { most ≤ 2 ^ length project.now.model.features }
    ensures { IfOk result (λ search. IsDone project.now most search) }
{
    let mut search = Search::new(alloc, project)?;
    let mut place = 0;
    'tried: while place < most && !search.is_settled() {
        search.try_next(alloc, project, place)?;
        place += 1;
    }
    Ok(search)
}

/// Checks a product line by making the variants of its valid selections, in order, as long as something is left to be found.
///
/// Each pair of a site and a rule that breaks in some variant has the least valid selection of one. At most as many selections are
/// tried as the budget allows; where that isn't all, pairs without an answer are undecided. Fails only where there is no memory.
pub fn judge_project(alloc: Global, project: &Project, budget: u32) -> Result<Findings, AllocError>
    requires some { 1 ≤ budget }
    requires few { budget ≤ 20000 }
    ensures { IfOk result (λ found. IsChecked project.now budget found.verdict found.entries) }
{
    let features = project.model().features.slice().len() as u8;
    let limited = is_limited(features, budget);
    let most = if limited { budget } else { 1 << features };
    let Search {
        questions,
        verdict,
        log,
    } = search_first(alloc, project, most)?;
    // Each undecided entry has the log, so that it is shared and not copied for each.
    let log = log.shared(alloc)?;
    let entries = entries_of(alloc, questions, limited, &log)?;
    let verdict = verdict_of(verdict, limited, log)?;
    Ok(Findings {
        verdict,
        entries: Items::of(entries),
    })
}
