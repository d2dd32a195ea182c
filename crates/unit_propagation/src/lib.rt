//! Unit propagation: where the unit clauses among some clauses lead, from values that variables have.
//!
//! Two literals of each clause are watched, so that a value is followed by a look at those clauses alone that watch the literal
//! that it makes false (Moskewicz, Madigan, Zhao, Zhang and Malik, DAC 2001). That is enough to see that all clauses are open:
//! where each value has been followed, a clause with a watched literal that is false has another that is true. From call to call
//! only the lists of clauses by watched literals are kept, so the caller may take values back as it likes.
#![tactic(auto)]

mod lists;
mod pair;
mod trail;
mod units;
mod values;
mod walk;
mod watched;
mod watches;

pub use cfj_logic::Literal;
pub use cfj_words::Items;
pub use trail::Step;
pub use watched::WatchedClauses;
