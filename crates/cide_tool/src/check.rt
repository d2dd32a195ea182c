//! The command `check`.
ghost use Rattle.std.specs.Prelude.{◌≡◌, ℕ, ◌≤◌, List, Some, IfOk, string_bytes};
ghost use Rattle.std.specs.List.{list_all, list_any};
ghost use Rattle.cide_io.specs.Faults.{Rose};
ghost use Rattle.cide_io.specs.Known.{Known};
ghost use Rattle.cide_io.specs.Changes.{Gains, OnlyReads};
ghost use Rattle.command_words.specs.Asked.{Asked};
ghost use Rattle.unit_facts.specs.Diagnostics.{IsChecked, is_decided_verdict, is_broken};
ghost use Rattle.unit_facts.specs.Findings.{findings};
ghost use Rattle.cide_tool.specs.Checks.{findings_status};
ghost use Rattle.cide_tool.specs.ProjectTexts.{StandsFor};
ghost use Rattle.cide_tool.specs.Refusals.{IsAnswer};

use crate::project::read_project;
use crate::refusal::Refusal;
use cfj_model::Project;
use cide_io::{Room, Sink, put_all};
use clean_law::clean_variants;
use plain_judge::{Findings, judge_project};
use std::alloc::{AllocError, Global};
use unit_facts::{Entry, Verdict, decides_few_features, findings_of};

/// Whether a verdict is decided.
fn is_decided_verdict(verdict: &Verdict) -> bool
    ensures { result ≡ is_decided_verdict verdict.now }
{
    match verdict {
        Verdict::Valid(_) => true,
        Verdict::Void(_) => true,
        Verdict::Unknown(_) => false,
    }
}

/// Whether an entry is broken.
fn is_any_broken(entries: &[Entry]) -> bool
    ensures { result ≡ list_any is_broken entries.now }
{
    entries.iter().any(|entry| entry.is_broken())
}

/// Whether all entries are broken, so that none is undecided.
fn is_each_broken(entries: &[Entry]) -> bool
    ensures { result ≡ list_all is_broken entries.now }
{
    entries.iter().all(|entry| entry.is_broken())
}

/// The status that tells what is found.
fn status_of(verdict: &Verdict, entries: &[Entry]) -> u8
    ensures { result ≡ findings_status verdict.now entries.now }
{
    if is_any_broken(entries) {
        return 1;
    }
    if is_decided_verdict(verdict) && is_each_broken(entries) {
        0
    } else {
        2
    }
}

/// The text of what is found of a project.
fn findings_text(
    alloc: Global,
    project: &Project,
    budget: u32,
    found: &Findings,
) -> Result<String, AllocError>
    requires { IsChecked project.now budget found.now.verdict found.now.entries }
    ensures { IfOk result (λ text.
        string_bytes text ≡ findings project.now.model.features found.now.verdict found.now.entries) }
{
    findings_of(
        alloc,
        project.model(),
        &found.verdict,
        found.entries.slice(),
    )
}

/// Puts out the text of what is found of a project, and gives the status that tells it.
fn put_text<O: Sink>(
    project: &Project,
    budget: u32,
    found: &Findings,
    text: &str,
    out: &mut O,
) -> Result<u8, Refusal>
    requires checked { IsChecked project.now budget found.now.verdict found.now.entries }
    requires text { text.now ≡ findings project.now.model.features found.now.verdict found.now.entries }
    ensures { (inputs : List ℕ → Known) (name : List ℕ) → StandsFor (inputs name) project.now
        → IsAnswer inputs ⊥ (Gains O.Sink out.old out.new) (Some (Asked.check name budget)) result }
{
    // What holds of findings without entries, and of few features, rests on these laws.
    clean_variants(project);
    decides_few_features();
    put_all(out, text.as_bytes())?;
    Ok(status_of(&found.verdict, found.entries.slice()))
}

/// Puts out what is found of a project, and gives the status that tells it.
fn put_findings<O: Sink>(
    alloc: Global,
    project: &Project,
    budget: u32,
    found: &Findings,
    out: &mut O,
) -> Result<u8, Refusal>
    requires { IsChecked project.now budget found.now.verdict found.now.entries }
    ensures { (inputs : List ℕ → Known) (name : List ℕ) → StandsFor (inputs name) project.now
        → IsAnswer inputs ⊥ (Gains O.Sink out.old out.new) (Some (Asked.check name budget)) result }
{
    let text = findings_text(alloc, project, budget, found)?;
    put_text(project, budget, found, text.as_str(), out)
}

/// Judges a project, and puts out what is found.
fn check_project<O: Sink>(
    alloc: Global,
    project: &Project,
    budget: u32,
    out: &mut O,
) -> Result<u8, Refusal>
    requires some { 1 ≤ budget }
    requires few { budget ≤ 20000 }
    ensures { (inputs : List ℕ → Known) (name : List ℕ) → StandsFor (inputs name) project.now
        → IsAnswer inputs ⊥ (Gains O.Sink out.old out.new) (Some (Asked.check name budget)) result }
{
    let found = judge_project(alloc, project, budget)?;
    put_findings(alloc, project, budget, &found, out)
}

/// Checks the project of this name, puts out what is found, and gives the status that tells it. The budget is the most clauses in the
/// log of what is undecided.
pub fn check<R: Room, O: Sink>(
    alloc: Global,
    name: &str,
    budget: u32,
    room: &mut R,
    out: &mut O,
) -> Result<u8, Refusal>
    requires some { 1 ≤ budget }
    requires few { budget ≤ 20000 }
    ensures answer { IsAnswer (R.input room.old) (Rose (R.read_faults room.old) (R.read_faults room.new))
        (Gains O.Sink out.old out.new) (Some (Asked.check name.now budget)) result }
    ensures frame { OnlyReads R.Room room.old room.new }
{
    let project = read_project(alloc, room, name)?;
    check_project(alloc, &project, budget, out)
}
