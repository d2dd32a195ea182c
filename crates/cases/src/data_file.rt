//! A file of cases.

use crate::part::read_part;
use crate::whole::run_words;
use case_files::{Answer, Case, CaseFault, Section, lines_of, print_difference, sections_of};
use std::rt::Files;
use std::{fs, io};

/// The words of the sections that a case may have.
const KNOWN: [&str; 8] = [
    "note", "words", "part", "file", "fault", "status", "out", "err",
];

/// The first section of a case that isn't known.
fn unknown<'a>(case: Case<'a>) -> Option<Section<'a>> {
    case.sections
        .iter()
        .find(|section| !KNOWN.contains(&section.word))
        .copied()
}

/// What comes of a case.
fn answer_of<'a, R: AllocGlobal>(rt: &R, case: Case<'a>) -> Result<Answer, CaseFault<'a>> {
    if let Some(section) = unknown(case) {
        return Err(CaseFault::Form(section.word));
    }
    if let Some(words) = case.section("words") {
        return run_words(rt, case, words.rest);
    }
    match case.section("part") {
        Some(part) => read_part(rt.alloc(), part),
        None => Err(CaseFault::Form("no words and no part")),
    }
}

/// What a case wants, and what came of it.
#[derive(Drop)]
struct Answers {
    wanted: Answer,
    came: Answer,
}

impl Answers {
    fn of<'a, R: AllocGlobal>(rt: &R, case: Case<'a>) -> Result<Answers, CaseFault<'a>> {
        let wanted = Answer::wanted(rt.alloc(), case)?;
        let came = answer_of(rt, case)?;
        Ok(Answers { wanted, came })
    }
}

/// Runs a case; whether it passed. Where it didn't, it prints why.
fn run_case<R: Print + AllocGlobal>(rt: &R, case: Case<'_>) -> io::Result<bool> {
    let name = case.name;
    match Answers::of(rt, case) {
        Ok(answers) => {
            if answers.wanted == answers.came {
                return Ok(true);
            }
            println!(rt; "{name}")?;
            print_difference(rt, &answers.wanted, &answers.came)?;
        }
        Err(CaseFault::NoMemory) => println!(rt; "{name}: no memory")?,
        Err(CaseFault::Form(line)) => println!(rt; "{name}: not of the form: {line}")?,
    }
    Ok(false)
}

/// How many cases passed, and how many didn't.
#[derive(Clone, Copy)]
struct Tally {
    passed: u64,
    failed: u64,
}

/// Runs the cases that these sections are. What stands in front of the first counts as one that fails.
fn run_sections<R: Print + AllocGlobal>(rt: &R, sections: &[Section<'_>]) -> io::Result<Tally> {
    let mut tally = Tally {
        passed: 0,
        failed: 0,
    };
    if sections.first().is_some_and(|first| first.word != "case") {
        println!(rt; "something stands in front of the first case")?;
        tally.failed = 1;
    }
    for at in 0..sections.len() {
        if let Some(case) = Case::at(&sections[at..]) {
            if run_case(rt, case)? {
                tally.passed = tally.passed.saturating_add(1);
            } else {
                tally.failed = tally.failed.saturating_add(1);
            }
        }
    }
    Ok(tally)
}

/// Runs the cases of a file, and prints how many passed; whether all did.
pub fn run_file<R: Files + Print + AllocGlobal>(rt: &R, name: &str) -> io::Result<bool> {
    let text = fs::read_to_string(rt, name)?;
    let lines = lines_of(rt.alloc(), text.as_str())?;
    let sections = sections_of(rt.alloc(), lines.as_slice())?;
    let Tally { passed, failed } = run_sections(rt, sections.as_slice())?;
    if failed == 0 {
        println!(rt; "{name}: {passed} passed")?;
    } else {
        println!(rt; "{name}: {passed} passed, {failed} failed")?;
    }
    Ok(failed == 0)
}
