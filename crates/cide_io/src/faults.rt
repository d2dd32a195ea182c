//! The faults of sources, sinks and rooms.

use std::fmt;
use thiserror::Error;

/// A source or a sink met a fault, which its count of faults shows.
#[derive(Clone, Copy, Debug, PartialEq, Eq)]
pub struct Failed;

impl fmt::Display for Failed {
    fn fmt<W: fmt::Write>(&self, f: &mut fmt::Formatter<W>) -> fmt::Result {
        write!(f, "failed")
    }
}

/// Why a room opened nothing.
#[derive(Clone, Copy, Debug, PartialEq, Eq, Error)]
pub enum OpenFault {
    /// There is no such name, or it can't be opened: the room's count of faults of that kind rose.
    #[error("can't be opened")]
    Failed,
    /// There was no memory.
    #[error("no memory")]
    NoMemory,
}

/// Why a source was not read to its end.
#[derive(Clone, Copy, Debug, PartialEq, Eq, Error)]
pub enum ReadAll {
    /// More bytes came than the limit allows.
    #[error("more bytes than the limit")]
    TooLong,
    /// The source failed: its count of faults rose.
    #[error("read fault")]
    ReadFault,
    /// There was no memory.
    #[error("no memory")]
    NoMemory,
}
