//! Equality by value: whether two classes, parts of classes, expressions or feature models are the same, whatever memory they stand in.
//!
//! Who has kept a copy of a part sees by it whether a project still has that part. What is compared is all that contracts see of a
//! value: names by their texts, the features that marks want and those that they don't, slots, alts, and lists item by item, in order.
//! Nothing is allocated, no address is looked at, and each node is met once, so the time grows as the smaller of both does.
//!
//! `Same` is what all these types have in common: fields, parameters, sent names, constructors, methods with their bodies, classes,
//! formulas and feature models. `same_items` compares lists of whatever has it, as the fields of a class by themselves.
//!
//! # How it is proved
//!
//! In a loop over two lists of one length the items before the place are the same. An expression and the arguments in it lead to each
//! other, so `expressions` has a loop over arguments of its own.
#![tactic(auto)]

mod classes;
mod ctors;
mod expressions;
mod fields;
mod methods;
mod models;
mod same;

pub use same::{Same, same_items};
