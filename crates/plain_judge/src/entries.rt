//! Entries and a verdict, of what a search found.

ghost use Rattle.std.specs.Prelude.{◌≡◌, ◌++◌, IfOk, OnOk, option_to_list};
ghost use Rattle.std.specs.List.{filter_map};
ghost use Rattle.plain_judge.specs.Concluding as spec;

use crate::question::Question;
use cfj_model::{Clause, FeatureSet, Log, Selection};
use std::alloc::{AllocError, Global};
use unit_facts::{Entry, Verdict};

/// What is found of a question, if there is anything to say: its answer, or the log where selections are left beyond the budget.
fn entry_of(question: Question, limited: bool, log: &Log) -> Result<Option<Entry>, AllocError>
    ensures { IfOk result (λ entry. entry ≡ spec.entry_of limited log.now question) }
{
    let Question { site, rule, answer } = question;
    match answer {
        Some(selection) => Ok(Some(Entry::Broken {
            site,
            rule,
            selection,
        })),
        None => {
            if !limited {
                return Ok(None);
            }
            let log = log.copy()?;
            Ok(Some(Entry::Undecided { site, rule, log }))
        }
    }
}

/// Adds what is found of a question.
fn add_entry(
    entries: &mut Vec<Entry>,
    question: Question,
    limited: bool,
    log: &Log,
) -> Result<(), AllocError>
    ensures { OnOk result (entries.new.items ≡ entries.old.items ++ option_to_list (spec.entry_of limited log.now question)) }
{
    if let Some(entry) = entry_of(question, limited, log)? {
        entries.push(entry)?;
    }
    Ok(())
}

/// What is found of each question.
pub fn entries_of(
    alloc: Global,
    questions: Vec<Question>,
    limited: bool,
    log: &Log,
) -> Result<Vec<Entry>, AllocError>
    ensures { IfOk result (λ entries. entries.items ≡ filter_map (spec.entry_of limited log.now) questions.items) }
{
    let mut entries: Vec<Entry> = Vec::new(alloc);
    'each: for question in questions {
        add_entry(&mut entries, question, limited, log)?;
    }
    Ok(entries)
}

/// What is found of the feature model: a selection, or the log. Where all selections are denied, the empty clause stands behind it.
pub fn verdict_of(answer: Option<Selection>, limited: bool, log: Log) -> Result<Verdict, AllocError>
    ensures { IfOk result (λ verdict. verdict ≡ spec.verdict_of limited log answer) }
{
    match answer {
        Some(selection) => Ok(Verdict::Valid(selection)),
        None => {
            if limited {
                return Ok(Verdict::Unknown(log));
            }
            let mut log = log;
            log.push(Clause::of(FeatureSet::empty(), FeatureSet::empty()))?;
            Ok(Verdict::Void(log))
        }
    }
}
