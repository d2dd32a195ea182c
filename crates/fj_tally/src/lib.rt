//! What has been met in a text, and which rule or limit a token breaks by that.
//!
//! A reader has each token counted in the role that it has, or is told that it breaks something, and then asks what. Names are looked
//! up without going through those that were met.
#![tactic(auto)]

mod admits;
mod met;
mod rules;
mod tally;

pub use tally::Tally;
