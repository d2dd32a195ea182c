//! What the words of a run may ask.

/// What the words of a run ask.
#[derive(Clone, Copy, Debug, PartialEq, Eq)]
pub enum Asked<'a> {
    /// Check all variants of a project.
    Check {
        /// The project's name.
        project: &'a str,
        /// The most clauses of a log, from 1 to 20,000.
        budget: u32,
    },
    /// Print a project as one of format two.
    Migrate {
        /// The project's name.
        project: &'a str,
    },
    /// Print one variant of a project.
    Export {
        /// The project's name.
        project: &'a str,
        /// The word that names the variant's features.
        names: &'a str,
    },
}

/// Why the words weren't read.
#[derive(Clone, Copy, Debug, PartialEq, Eq)]
pub enum WordsFault {
    /// They aren't a command's.
    NoCommand,
    /// There was no memory.
    NoMemory,
}
