//! Reads a formula of a feature model, one token at a time.
//!
//! The reader is a machine that never looks ahead: what was read to the left of a connective waits in a frame until a token
//! comes that binds no tighter. It ends at the semicolon behind the formula.
#![tactic(auto)]

mod frame;
mod frames;
mod laws;
mod mode;
mod reader;
mod stack;
mod steps;

pub use laws::{keeps_constraints, reads_formulas};
pub use reader::FormulaReader;
