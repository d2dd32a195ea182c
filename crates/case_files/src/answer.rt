//! What a case wants, and what comes of it.

ghost use Rattle.std.specs.Prelude.{◌≡◌, [], ◌∷◌, ◌++◌, IfOk};

use crate::content::Content;
use crate::fault::CaseFault;
use crate::section::Case;
use std::alloc::{AllocError, Global};

/// What came of a case, or what it wants.
#[derive(Drop, PartialEq)]
pub struct Answer {
    pub status: u8,
    pub out: Vec<u8>,
    pub err: Vec<u8>,
}

impl Answer {
    /// What a case wants.
    pub fn wanted<'a>(alloc: Global, case: Case<'a>) -> Result<Answer, CaseFault<'a>> {
        let place = marked_place(alloc, case)?;
        let out = Content::of(alloc, case.content("out"), place)?.into_bytes();
        let err = Content::of(alloc, case.content("err"), place)?.into_bytes();
        Ok(Answer {
            status: wanted_status(case)?,
            out,
            err,
        })
    }

    /// A line on the standard output, with status 0.
    pub fn line(alloc: Global, line: &str) -> Result<Answer, AllocError>
        ensures status { IfOk result (λ answer. answer.status ≡ 0) }
        ensures out { IfOk result (λ answer. answer.out.items ≡ line.now ++ 10 ∷ []) }
        ensures err { IfOk result (λ answer. answer.err.items ≡ []) }
    {
        Ok(Answer {
            status: 0,
            out: ended(alloc, line)?,
            err: Vec::new(alloc),
        })
    }

    /// A line on the standard error, with status 3.
    pub fn refusal(alloc: Global, line: &str) -> Result<Answer, AllocError>
        ensures status { IfOk result (λ answer. answer.status ≡ 3) }
        ensures out { IfOk result (λ answer. answer.out.items ≡ []) }
        ensures err { IfOk result (λ answer. answer.err.items ≡ line.now ++ 10 ∷ []) }
    {
        Ok(Answer {
            status: 3,
            out: Vec::new(alloc),
            err: ended(alloc, line)?,
        })
    }
}

/// A line with its end.
fn ended(alloc: Global, line: &str) -> Result<Vec<u8>, AllocError>
    ensures { IfOk result (λ bytes. bytes.items ≡ line.now ++ 10 ∷ []) }
{
    let mut bytes = Vec::from_slice(alloc, line.as_bytes())?;
    bytes.push(b'\n')?;
    Ok(bytes)
}

/// The place that is marked in what a case reads.
fn marked_place<'a>(alloc: Global, case: Case<'a>) -> Result<Option<usize>, CaseFault<'a>> {
    for section in case.sections {
        if section.word == "file" || section.word == "part" {
            let place = Content::of(alloc, section.content, None)?.place();
            if place.is_some() {
                return Ok(place);
            }
        }
    }
    Ok(None)
}

/// The status that a case wants; 0 where it names none.
fn wanted_status(case: Case<'_>) -> Result<u8, CaseFault<'_>> {
    let Some(section) = case.section("status") else {
        return Ok(0);
    };
    match section.rest.parse::<u8>() {
        Ok(status) => Ok(status),
        Err(_) => Err(CaseFault::Form(section.rest)),
    }
}
