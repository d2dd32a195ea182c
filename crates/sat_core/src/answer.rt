//! The answers of a search.

use cfj_logic::{Log, Selection};

/// What a search for a model has come to, with the clauses that it learned.
#[derive(Debug, Drop)]
pub enum Answer {
    /// No assignment makes every clause true: the log holds the empty clause.
    Refuted(Log),
    /// The least selection that extends to a model, and a proof that it is.
    Least(Selection, Log),
    /// As many clauses were learned as the budget allows.
    Spent(Log),
}
