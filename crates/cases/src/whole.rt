//! Cases that are runs of the program.

use case_files::{Answer, Case, CaseFault, Content, words_of};
use cide_io::{MemRoom, MemSink};
use cide_tool::run;
use std::alloc::{AllocError, AllocGlobal, Global};

/// A call that a case lets fail.
#[derive(Clone, Copy, PartialEq)]
enum Call {
    /// An open of the room.
    Open,
    /// A take of a file, of which each file counts its own.
    Take,
    /// A put on the standard output.
    Out,
    /// A put on the standard error.
    Err,
}

/// The call that this word names.
fn call_named(word: &str) -> Option<Call> {
    match word {
        "open" => Some(Call::Open),
        "take" => Some(Call::Take),
        "out" => Some(Call::Out),
        "err" => Some(Call::Err),
        _ => None,
    }
}

/// The call and the number that stand behind `fault`.
fn failing_call(rest: &str) -> Option<(Call, u64)> {
    let (word, number) = rest.split_once(' ')?;
    let call = call_named(word)?;
    let number = number.parse::<u64>().ok()?;
    Some((call, number))
}

/// The numbers of these calls that are to fail.
fn failing<'a>(alloc: Global, case: Case<'a>, call: Call) -> Result<Vec<u64>, CaseFault<'a>> {
    let mut numbers = Vec::new(alloc);
    for section in case.sections {
        if section.word == "fault" {
            match failing_call(section.rest) {
                Some((named, number)) if named == call => numbers
                    .push(number)
                    .map_err(AllocError::from)?,
                Some(_) => {}
                None => return Err(CaseFault::Form(section.rest)),
            }
        }
    }
    Ok(numbers)
}

/// Adds the files of a case to a room.
fn add_files<'a>(alloc: Global, room: &mut MemRoom, case: Case<'a>) -> Result<(), CaseFault<'a>> {
    let takes = failing(alloc, case, Call::Take)?;
    for section in case.sections {
        if section.word == "file" {
            let content = Content::of(alloc, section.content, None)?;
            room.add_input(section.rest, content.bytes(), takes.as_slice())?;
        }
    }
    Ok(())
}

/// What comes where the program runs with these words over the files of a case.
pub fn run_words<'a, T: AllocGlobal>(
    rt: &T,
    case: Case<'a>,
    line: &'a str,
) -> Result<Answer, CaseFault<'a>> {
    let alloc = rt.alloc();
    let words = words_of(alloc, line)?;
    let opens = failing(alloc, case, Call::Open)?;
    let outs = failing(alloc, case, Call::Out)?;
    let errs = failing(alloc, case, Call::Err)?;
    let mut room = MemRoom::new(Vec::new(alloc), Vec::new(alloc), opens);
    let mut out = MemSink::new(outs);
    let mut err = MemSink::new(errs);
    let added = add_files(alloc, &mut room, case);
    let status = run(rt, words.as_slice(), &mut room, &mut out, &mut err);
    room.close();
    let out = out.into_held();
    let err = err.into_held();
    added?;
    Ok(Answer { status, out, err })
}
