//! A checker of logs: whether each clause of a log follows from the clauses before it, by unit clauses alone.
//!
//! A log is what a solver has learned. Where it is accepted and holds the empty clause, no assignment makes every clause true;
//! where it proves that a selection is the least, no earlier one extends to a model. Nothing of the search that made it is used.
#![tactic(auto)]

mod accepted;
mod check;
mod law;
mod premises;

pub use accepted::is_known;
pub use cfj_logic::{Clauses, Literal};
pub use check::{check_least, check_refutation, is_conflict};
pub use law::consequence;
pub use premises::literals;
