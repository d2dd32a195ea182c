//! The literals that were made true, in order.

use cfj_logic::Literal;
use std::alloc::{AllocError, Global};

/// A literal that was made true.
#[derive(Clone, Copy, Debug)]
pub struct Step {
    /// The literal.
    pub literal: Literal,
    /// The place of the unit clause that it was the literal of, if there was one.
    pub cause: Option<usize>,
}

/// A step for each variable that has a value.
pub(crate) fn trail_of(alloc: Global, values: &[Option<bool>]) -> Result<Vec<Step>, AllocError> {
    let mut trail = Vec::with_capacity(alloc, values.len())?;
    for (var, value) in values.iter().enumerate() {
        if let Some(on) = *value {
            let literal = Literal {
                var: var as u64,
                on,
            };
            trail.push(Step {
                literal,
                cause: None,
            })?;
        }
    }
    Ok(trail)
}
