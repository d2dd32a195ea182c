//! The tokens of coloured Featherweight Java as its grammar knows them, the roles that they have there, and the features by
//! their names.
//!
//! What reads a part of the grammar rests on these: it takes one `Symbol` at a time and tells its `Role`.
#![tactic(auto)]

mod features;
mod names;
mod role;
mod symbol;

pub use features::Features;
pub use names::name_of;
pub use role::Role;
pub use symbol::{Symbol, symbol_of};
