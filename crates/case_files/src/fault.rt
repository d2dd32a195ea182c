//! Why a case can't be run.

use std::alloc::AllocError;

/// Why a case can't be run.
#[derive(Clone, Copy, Debug)]
pub enum CaseFault<'a> {
    /// There was no memory.
    NoMemory,
    /// This line, or part of one, isn't of the form.
    Form(&'a str),
}

impl From<AllocError> for CaseFault<'_> {
    fn from(_: AllocError) -> Self {
        CaseFault::NoMemory
    }
}
