//! What a feature model says of selections of its features.
//!
//! Rests on `cfj_model`, which has the model, names and selections, and says when a selection is valid.
//! `specs/NamedSelections.antt` says which selection a list of names spells, and which name is at fault where it spells none.
#![tactic(auto)]

mod names;
mod validity;

pub use names::{NameFault, read_selection};
pub use validity::{Failing, valid};
