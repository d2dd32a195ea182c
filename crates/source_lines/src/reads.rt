//! What reading a line comes to.

/// What [`crate::Lines::advance`] came to.
#[derive(Clone, Copy, Debug, PartialEq, Eq)]
pub enum Read {
    /// There is a line, which [`crate::Lines::line`] lends.
    Line,
    /// The line has more bytes than the limit. Each later call says so too.
    TooLong,
    /// Nothing is left.
    End,
    /// The source failed. Each later call says so too.
    ReadFault,
}

/// What the look for the first line of a window came to.
#[derive(Clone, Copy)]
pub enum Found {
    /// The length of the line, and how many bytes are passed with it.
    Line(usize, usize),
    /// It has more bytes than the limit.
    TooLong,
    /// Nothing is left.
    End,
    /// The source failed.
    ReadFault,
}
