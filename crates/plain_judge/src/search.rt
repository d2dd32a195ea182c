//! The selections, tried one after another.

ghost use Rattle.std.specs.Prelude.{◌≡◌, ◌↔◌, ℕ, ◌+◌, ◌^◌, ◌<◌, IsTrue, IfOk, OnOk, length};
ghost use Rattle.cfj_logic.specs.Validity.{IsValid};
ghost use Rattle.plain_judge.specs.Searching as spec;

use crate::denials::denial;
use crate::order::nth_selection;
use crate::pairs::pairs_of;
use crate::question::{Question, are_answered, consider_all, questions_of};
use cfj_model::{Log, Project, Selection};
use feature_model::valid;
use plain_fj::every_break;
use std::alloc::{AllocError, Global};

/// What is found while the selections of a project's features are tried in order.
#[derive(Debug, Drop)]
pub struct Search {
    /// About each pair of a site and a rule.
    pub questions: Vec<Question>,
    /// The least valid selection, if one is found.
    pub verdict: Option<Selection>,
    /// The clauses that deny the selections that were tried.
    pub log: Log,
}

/// Whether a selection of the project's features makes each constraint true.
fn is_valid(project: &Project, selection: Selection) -> bool
    requires { selection.features ≡ length project.now.model.features }
    ensures { IsTrue result ↔ IsValid project.now.model.constraints selection }
{
    valid(project.model(), &selection).is_ok()
}

impl Search {
    /// Nothing is tried yet.
    pub fn new(alloc: Global, project: &Project) -> Result<Search, AllocError>
        ensures { IfOk result (λ search. spec.IsSearched project.now 0 search) }
    {
        let pairs = pairs_of(alloc, project)?;
        let questions = questions_of(alloc, pairs)?;
        Ok(Search {
            questions,
            verdict: None,
            log: Log::new(alloc),
        })
    }

    /// Makes the variant of a valid selection. Whatever breaks in it is answered by the selection, if it has no answer yet.
    fn see(
        &mut self,
        alloc: Global,
        project: &Project,
        selection: Selection,
    ) -> Result<(), AllocError>
        requires { selection.features ≡ length project.now.model.features }
        ensures { OnOk result (spec.IsSeen project.now selection self.old self.new) }
    {
        if self.verdict.is_none() {
            self.verdict = Some(selection);
        }
        let variant = feature_views::project(alloc, project, &selection)?;
        let breaks = every_break(alloc, &variant)?;
        consider_all(alloc, &mut self.questions, &breaks, selection)?;
        Ok(())
    }

    /// Tries the selection at a place of the order, behind all before it.
    pub fn try_next(
        &mut self,
        alloc: Global,
        project: &Project,
        place: u32,
    ) -> Result<(), AllocError>
        requires within { place < 2 ^ length project.now.model.features }
        requires before { spec.IsSearched project.now place self.old }
        ensures { OnOk result (spec.IsSearched project.now (place + 1) self.new) }
    {
        let features = project.model().features.slice().len() as u8;
        let selection = nth_selection(features, place);
        if is_valid(project, selection) {
            self.see(alloc, project, selection)?;
        }
        self.log.push(denial(selection))
    }

    /// Whether nothing is left to be found.
    pub fn is_settled(&self) -> bool
        ensures { result ≡ spec.is_settled self.now }
    {
        self.verdict.is_some() && are_answered(&self.questions)
    }
}
