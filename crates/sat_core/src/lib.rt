//! A solver with a log: the least selection that extends to a model of clauses, or a refutation, each with its proof.
//!
//! `refutation_check` checks what it answers. Nothing but the contract of `solve` says how the search goes.
#![tactic(auto)]

mod answer;
mod search;
mod steps;

pub use answer::Answer;
pub use search::solve;
