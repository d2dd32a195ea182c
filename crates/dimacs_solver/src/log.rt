//! The log of a text.

ghost use Rattle.std.specs.Prelude.{◌≡◌};

use crate::problem::clauses_of;
use crate::text::read_text;
use cfj_logic::{Clause, FeatureSet, Literal, Log};
use cfj_words::Items;
use std::alloc::{AllocError, Global};

/// The clause over features with these literals; nothing where a variable is no feature, or has literals of both kinds.
fn clause_of(literals: &[Literal]) -> Option<Clause> {
    let mut on = FeatureSet::empty();
    let mut off = FeatureSet::empty();
    'literals: for literal in literals {
        if literal.var >= 128 {
            return None;
        }
        let feature = literal.var as u8;
        if literal.on {
            on = on.with(feature);
        } else {
            off = off.with(feature);
        }
    }
    if !on.is_disjoint(&off) {
        return None;
    }
    Some(Clause::of(on, off))
}

/// The log of these clauses, if all are over features.
fn log_of(alloc: Global, list: &[Items<Literal>]) -> Result<Option<Log>, AllocError> {
    let mut log = Log::new(alloc);
    'clauses: for literals in list {
        match clause_of(literals.slice()) {
            Some(clause) => log.push(clause)?,
            None => return Ok(None),
        }
    }
    Ok(Some(log))
}

/// The log of a text.
pub(crate) fn read_log(alloc: Global, text: &str) -> Result<Option<Log>, AllocError> {
    match read_text(alloc, text)? {
        None => Ok(None),
        Some(numbers) => {
            let list = clauses_of(alloc, numbers.list.as_slice())?;
            log_of(alloc, list.as_slice())
        }
    }
}
