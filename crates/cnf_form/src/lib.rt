//! The clauses of a gate: a set of clauses that can be made true together with a selection exactly where the gate is true under it.
//!
//! They are those of Tseitin: a variable for each gate that the gate reaches, and two or three clauses that give it its value.
//! `specs/GateClauses.antt` says which and in which order.
#![tactic(auto)]

mod gate;
mod laws;
mod literals;
mod marks;

pub use gate::clauses_of;
pub use laws::{extends_where_true, settled_by_features};
