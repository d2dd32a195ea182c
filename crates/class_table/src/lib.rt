//! The class table of a project: its classes by name, and by name the chain of each, which is the class, its superclass and so on.
//!
//! A look-up in a class table goes along one chain, and none goes through the classes. Contracts see `ClassMap` and `ClassTable` as the
//! list of the project's classes, and cite the look-ups of `cfj_model/specs/LookUps.antt`, which are defined over that list. So whoever
//! judges a project states its rules over the list alone.
//!
//! # How it is proved
//!
//! `specs/ByName.antt` says what a map from names knows of the classes. A map is filled class by class, and `proofs/ByNames.antt` shows
//! that it knows one more with each step. `superclasses` walks up a chain and takes each class that it meets: `proofs/Walking.antt` has
//! the classes taken so far, followed by the chain of the rest, as the whole chain. `proofs/Nearest.antt` is of the first class along a
//! chain that declares a name. `proofs/Members.antt`, on items of lists, and `proofs/Without.antt`, on class tables without a class,
//! serve the proofs of the crates above too.
#![tactic(auto)]

mod class_map;
mod superclasses;
mod table;

pub use class_map::ClassMap;
pub use superclasses::chain;
pub use table::{ClassTable, is_extended, nearest_field, nearest_method};
