//! The machine that reads the tokens of a project, one at a time, and never looks ahead.
//!
//! It keeps what has been read and is still in hand, and says of each token whether the grammar can go on by it, in which role it
//! stands there, and whether some identifier could stand in its place. Rules and limits are no matter of it. `specs/Machine.antt`
//! says how it goes on; each step of the code is proved equal to it. A formula's tokens it hands to `formula_reader`, and an
//! expression's to `expression_reader`.
#![tactic(auto)]

mod assigns;
mod ctors;
mod heads;
mod machine;
mod members;
mod methods;
mod mode;
mod names;
mod params;
mod role;

pub use machine::{Machine, NO_NAME};
pub use mode::{Mode, Node, Owner};
