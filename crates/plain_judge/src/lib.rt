//! Checks all variants of a product line by making them: one valid selection after another, in order, until each pair of a site and
//! a rule has broken somewhere or a budget is spent.
//!
//! It is the slow twin of a checker that asks a solver, and keeps the same promise.
//!
//! # How it is proved
//!
//! `specs/Diagnostics.antt` of `unit_facts` says what a right verdict and right entries are, over all valid selections: a broken
//! entry has the least one in whose variant its rule breaks, and an undecided one has a log of the budget's length, of clauses
//! that no answer makes false. `specs/Searching.antt` has what is known once the first `k` selections are tried, which each
//! further selection keeps up; `Considering.antt` and `Concluded.antt` carry it through one variant and to the entries.
//! `FewClauses.antt` in `unit_facts` counts the clauses over few features, so that there the log is never spent.
#![tactic(auto)]

mod body;
mod breaks;
mod denials;
mod entries;
mod judge;
mod nodes;
mod order;
mod pairs;
mod question;
mod search;
mod site_parts;
mod site_rules;

pub use judge::{Findings, judge_project};
