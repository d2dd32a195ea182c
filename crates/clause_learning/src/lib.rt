//! Learning a clause from a conflict, and where to go back to.
//!
//! A trail has decisions, and literals that followed from them, each with the place of the unit clause that it was the literal of. At
//! a falsified clause those are resolved with one another until features alone are left, and of those behind the last decision
//! one: the first feature through which all that follows from the last decision passes (the unique implication points of Marques-Silva and Sakallah,
//! IEEE Transactions on Computers 48(5), 1999, among features alone).
#![tactic(auto)]

mod analysis;
mod chosen;
mod marks;
mod places;
mod resolution;

pub use analysis::{Learned, analyze};
pub use chosen::{next_feature, selection_of};
pub use places::last_decision;
pub use unit_propagation::Step;
