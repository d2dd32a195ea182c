//! The variant of a valid selection, printed.
//!
//! Rests on `feature_model` for validity and on `fj_printer` for the print.
//! `specs/Exports.antt` says what an export comes to.
#![tactic(auto)]

mod variant;

pub use variant::{ExportFault, export};
