//! The text of findings.

ghost use Rattle.std.specs.Prelude.{◌≡◌, ◌++◌, true, length, flat_map, codes, IfOk, OnOk, string_bytes};
ghost use Rattle.std.specs.List.{list_all};
ghost use Rattle.unit_facts.specs.Findings as spec;

use crate::entry::{Entry, Verdict};
use cfj_model::{FeatureModel, Name, Rule, Selection};
use std::alloc::{AllocError, Global};

fn rule_text(rule: Rule) -> &'static str
    ensures { result.now ≡ spec.rule_text rule }
{
    match rule {
        Rule::K1 => "K1",
        Rule::K2 => "K2",
        Rule::K3 => "K3",
        Rule::K4 => "K4",
        Rule::K5 => "K5",
        Rule::K6 => "K6",
        Rule::K7 => "K7",
        Rule::K8 => "K8",
        Rule::K9 => "K9",
        Rule::E1 => "E1",
        Rule::E2 => "E2",
        Rule::E3 => "E3",
        Rule::E4 => "E4",
        Rule::E5 => "E5",
        Rule::E6 => "E6",
        Rule::E7 => "E7",
        Rule::E8 => "E8",
    }
}

/// Writes the selected features, with single spaces between them.
fn write_names(text: &mut String, features: &[Name], selection: Selection) -> Result<(), AllocError>
    requires { selection.features ≡ length features.now }
    ensures { OnOk result (string_bytes text.new ≡ string_bytes text.old ++ spec.spaced (spec.selected_from selection 0 features.now)) }
{
    let mut between = "";
    'features: for feature in 0..selection.features() {
        if selection.has(feature) {
            write_word(text, between, features[usize::from(feature)].text())?;
            between = " ";
        }
    }
    Ok(())
}

fn write_word(text: &mut String, between: &str, word: &str) -> Result<(), AllocError>
    ensures { OnOk result (string_bytes text.new ≡ string_bytes text.old ++ (between.now ++ word.now)) }
{
    text.push_str(between)?;
    text.push_str(word)
}

fn write_selection(
    text: &mut String,
    features: &[Name],
    selection: Selection,
) -> Result<(), AllocError>
    requires { selection.features ≡ length features.now }
    ensures { OnOk result (string_bytes text.new ≡ string_bytes text.old ++ spec.selection_text features.now selection) }
{
    text.push_str("[")?;
    write_names(text, features, selection)?;
    text.push_str("]")
}

fn write_verdict(text: &mut String, features: &[Name], verdict: &Verdict) -> Result<(), AllocError>
    requires { spec.is_verdict_over (length features.now) verdict.now ≡ true }
    ensures { OnOk result (string_bytes text.new ≡ string_bytes text.old ++ spec.verdict_line features.now verdict.now) }
{
    match verdict {
        Verdict::Valid(selection) => {
            text.push_str("model valid ")?;
            write_selection(text, features, *selection)?;
            text.push_str("\n")
        }
        Verdict::Void(_) => text.push_str("model void\n"),
        Verdict::Unknown(log) => writeln!(text, "model undecided {}", log.clauses().len()),
    }
}

fn write_entry(text: &mut String, features: &[Name], entry: &Entry) -> Result<(), AllocError>
    requires { spec.is_entry_over (length features.now) entry.now ≡ true }
    ensures { OnOk result (string_bytes text.new ≡ string_bytes text.old ++ spec.entry_line features.now entry.now) }
{
    match entry {
        Entry::Broken {
            site,
            rule,
            selection,
        } => {
            write!(text, "broken {site} {} ", rule_text(*rule))?;
            write_selection(text, features, *selection)?;
            text.push_str("\n")
        }
        Entry::Undecided { site, rule, log } => writeln!(
            text,
            "undecided {site} {} {}",
            rule_text(*rule),
            log.clauses().len()
        ),
    }
}

fn write_entries(text: &mut String, features: &[Name], entries: &[Entry]) -> Result<(), AllocError>
    requires { list_all (spec.is_entry_over (length features.now)) entries.now ≡ true }
    ensures { OnOk result (string_bytes text.new ≡ string_bytes text.old ++ flat_map (spec.entry_line features.now) entries.now) }
{
    'entries: for entry in entries {
        write_entry(text, features, entry)?;
    }
    Ok(())
}

fn broken_count(entries: &[Entry]) -> usize
    ensures { result ≡ spec.broken_count entries.now }
{
    entries.iter().filter(|entry| entry.is_broken()).count()
}

fn undecided_count(entries: &[Entry]) -> usize
    ensures { result ≡ spec.undecided_count entries.now }
{
    entries.iter().filter(|entry| !entry.is_broken()).count()
}

fn undecided_verdicts(verdict: &Verdict) -> usize
    ensures { result ≡ spec.undecided_verdicts verdict.now }
{
    usize::from(matches!(verdict, Verdict::Unknown(_)))
}

fn write_summary(text: &mut String, verdict: &Verdict, entries: &[Entry]) -> Result<(), AllocError>
    ensures { OnOk result (string_bytes text.new ≡ string_bytes text.old ++ spec.summary_line verdict.now entries.now) }
{
    let broken = broken_count(entries);
    let undecided = undecided_count(entries) + undecided_verdicts(verdict);
    writeln!(text, "summary broken {broken} undecided {undecided}")
}

/// The text of what is found: a line for the verdict, one for each entry, and the summary.
pub fn findings_of(
    alloc: Global,
    model: &FeatureModel,
    verdict: &Verdict,
    entries: &[Entry],
) -> Result<String, AllocError>
    requires { spec.AreOfModel model.now.features verdict.now entries.now }
    ensures { IfOk result (λ text. string_bytes text ≡ spec.findings model.now.features verdict.now entries.now) }
{
    let features = model.features.slice();
    let mut text = String::new(alloc);
    write_verdict(&mut text, features, verdict)?;
    write_entries(&mut text, features, entries)?;
    write_summary(&mut text, verdict, entries)?;
    Ok(text)
}
