//! What was read last.

use cfj_model::Formula;

/// What was read last.
#[derive(Drop)]
pub enum Mode {
    /// Nothing, or what an operand must follow.
    Want,
    /// An operand, which may be the left side of a connective.
    After(Formula),
    /// The formula and its semicolon.
    Done(Formula),
}
