//! The alts of members: how many fields, or methods, of its name stand before each in its class.
//!
//! A class may declare several fields, or several methods, of one name, which its variants keep apart by colours. Their alts tell them
//! apart elsewhere. They are found in one walk with a look-up by name, so in a time that grows as the number of members does.
#![tactic(auto)]

mod alts;
mod counts;
mod member;

pub use alts::{number_fields, number_methods};
