//! Lists whose copies share their items.
//!
//! A copy of a list, or a list with one item changed, takes pointers and no copy of an item. Contracts see such a list as the list
//! of its items, and never say what is shared.
#![tactic(auto)]

mod chunk;
mod list;
mod shared;
#[cfg(test)]
mod tests;

pub use list::SharedList;
pub use shared::Shared;
