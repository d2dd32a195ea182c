//! Circuits over the features of a product line: conditions that share their parts, each gate once.
//!
//! A gate is a number. Gate 0 is false and gate 1 is true; each other gate is a feature, or `not`, `and` or `or` of gates before it.
//! What can be folded is folded as it is built, and a gate that is there is given again. Gates are only added, so a gate keeps its
//! value under every selection, also where there was no memory for a later one.
//!
//! A caller needs two facts of `specs/Gates.antt`: `Grown`, that a call added gates and changed none, and `Is`, that a gate is there
//! and what it is worth under each selection.
#![tactic(auto)]

mod circuit;
mod folding;
mod index;
mod part;

pub use circuit::Circuit;
pub use part::Part;
