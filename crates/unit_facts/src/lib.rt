//! What is found of a product line: entries for pairs of a site and a rule, and a verdict on its feature model.
//!
//! `specs/Diagnostics.antt` says which entries and which verdict are right, over all valid selections; `specs/Findings.antt` how they
//! are printed. Undecided is what a log of as many clauses as the budget allows stands for.
#![tactic(auto)]

mod entry;
mod findings;
mod laws;
mod unit;

pub use entry::{Entry, Verdict};
pub use findings::findings_of;
pub use laws::{decides_few_features, format_changes_nothing};
pub use unit::{Key, Unit};
