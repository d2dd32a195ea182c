//! The logic of feature models: sets and selections of features, formulas, clauses and logs of clauses.
//!
//! `specs/` says when a formula is true under a selection, when a selection is valid and which of two is earlier, when a clause
//! follows from others by unit clauses, and when a log of such clauses is a refutation or shows that a selection is the least.
#![tactic(auto)]

mod clause;
mod clauses;
mod feature_set;
mod formula;
mod log;
mod selection;

pub use clause::Clause;
pub use clauses::{Clauses, Literal};
pub use feature_set::FeatureSet;
pub use formula::Formula;
pub use log::Log;
pub use selection::Selection;
