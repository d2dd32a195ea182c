//! What the valid selections of a feature model say of one feature.

use cfj_logic::{Log, Selection};

/// What the valid selections of a feature model say of a feature, each with its proof.
#[derive(Debug, Drop)]
pub enum Standing {
    /// No valid selection has it: a refutation of the clauses that ask for one.
    Dead(Log),
    /// Each valid selection has it, and there is one: a refutation of the clauses that ask for one without it.
    Always(Log),
    /// Some have it and some don't.
    Free {
        /// The least valid selection with it.
        with: Selection,
        /// The least valid selection without it.
        without: Selection,
    },
    /// The log of the first question that took as many clauses as it may.
    Undecided(Log),
}
