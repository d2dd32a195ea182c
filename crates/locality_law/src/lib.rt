//! The laws of units: what a judgement may depend on, and that it depends on nothing else.
//!
//! `unit_facts` says what the units of a project are, which facts each of them reaches, and when a judgement of a unit is honest: right
//! for every project that has its facts. Here it is shown, over the definitions alone, that two projects with the same facts at what a
//! unit reaches in one of them judge the unit alike, in every variant; so a judgement that is right for one project is honest. And the
//! units of a project together make up the project: its pairs and its entries are theirs, joined in their order.
//!
//! The proofs rest on `feature_views`, whose variants keep what a project keeps, on `unit_facts`, where pairs are listed node by node,
//! and on what `class_table` shows of lists and of tables. `proofs/SeenChains.antt` has the heart of it: a look-up sees a class only as
//! others see it, and the facts say how that is.
#![tactic(auto)]

mod laws;
mod rows;

pub use laws::{
    breaks_in_unit, checked_by_units, exact_both, exact_there, honest_here, local, pairs_apart,
    pairs_by_unit, seen_broken, seen_pairs, seen_tells,
};
pub use rows::{facts_of_the_sample, reach_of_a_class, reach_of_a_method, units_of_the_sample};
