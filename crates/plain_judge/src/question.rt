//! What is asked of each pair: the least selection under which it breaks.

ghost use Rattle.std.specs.Prelude.{◌≡◌, IfOk, OnOk, map};
ghost use Rattle.plain_judge.specs.Questions as spec;

use crate::breaks::Breaks;
use cfj_model::{Rule, Selection, Site};
use std::alloc::{AllocError, Global};

/// Whether the rule breaks at the site under some valid selection.
#[derive(Debug, Drop)]
pub struct Question {
    /// The node.
    pub site: Site,
    /// The rule.
    pub rule: Rule,
    /// The least valid selection under which it breaks there, if one is found.
    pub answer: Option<Selection>,
}

impl Question {
    /// Takes a selection as its answer, if it has none and its pair is among those that break in the variant of the selection.
    fn consider(&mut self, breaks: &Breaks<'_>, selection: Selection)
        ensures { spec.IsConsidered breaks.now selection self.old self.new }
    {
        if self.answer.is_none() && breaks.has(&self.site, self.rule) {
            self.answer = Some(selection);
        }
    }
}

/// A question about each pair, without an answer.
pub fn questions_of(alloc: Global, pairs: Vec<(Site, Rule)>) -> Result<Vec<Question>, AllocError>
    ensures { IfOk result (λ questions. questions.items ≡ map spec.unanswered pairs.items) }
{
    let mut questions: Vec<Question> = Vec::new(alloc);
    'each: for (site, rule) in pairs {
        questions.push(Question {
            site,
            rule,
            answer: None,
        })?;
    }
    Ok(questions)
}

/// Every question considers a selection.
pub fn consider_all(
    alloc: Global,
    questions: &mut [Question],
    breaks: &[(Site, Rule)],
    selection: Selection,
) -> Result<(), AllocError>
    ensures { OnOk result (spec.AreConsidered breaks.now selection questions.old questions.new) }
{
    let broken = Breaks::of(alloc, breaks)?;
    'each: for question in questions.iter_mut() {
        question.consider(&broken, selection);
    }
    Ok(())
}

/// Whether every question has an answer.
pub fn are_answered(questions: &[Question]) -> bool
    ensures { result ≡ spec.are_answered questions.now }
{
    questions.iter().all(|question| question.answer.is_some())
}
