//! Sequences whose items are there under some selections alone, compared under all selections at once.
//!
//! An item is `Guarded`: it is present where its gate is true. Under each selection a sequence of such items remains as that of those
//! that are present, in order. Three questions about two of them are answered by a gate: whether their lengths differ, whether they
//! differ as lists, and whether two items match, which means that both are present and have the same place among those that are.
//!
//! The gates are found by a table, a row for each item of the one sequence and a cell for each item of the other. What both have in
//! common at the front and at the back, item by item under the same gates, isn't looked at: so two sequences that are written alike
//! are compared in linear time, and their gate is gate 0. Who asks for many matches makes the table once, by `ranks`.
//!
//! It rests on `cond_circuit`, and is proved by `specs/Sequences.antt`, which says what remains of a sequence.
#![tactic(auto)]

mod common;
mod guarded;
mod lengths;
mod matching;
mod rank_table;
mod rows;
mod sequences;

pub use guarded::Guarded;
pub use lengths::lengths_differ;
pub use matching::matched;
pub use rank_table::{RankTable, ranks};
pub use sequences::labels_differ;
