//! Look-ups in the class table of a product line, for all variants at once.
//!
//! A look-up in one variant finds something or nothing. Here it finds what the variants find, each with a gate that is true under the
//! selections in whose variants it is found: whether a name is known, whether a class is below another, the type of a field, the
//! declaration of a method, how many classes a chain has and which fields they have. Several declarations of a name, along a chain or
//! in one class, are taken in the order in which a variant looks, and each counts where none before it is there.
//!
//! # By who asks
//!
//! A look-up is asked by a node, which is there only where its marks hold. So a gate is told within these marks, `IsWithin` in
//! `specs/Within.antt`: where they don't hold it may have any value. What is there wherever the node is takes gate 1, and makes no gate;
//! what can't be there beside it takes gate 0. In a line that is marked well no look-up adds a gate.
//!
//! # How it is proved
//!
//! `along` in `specs/Along.antt` is what the classes of a chain declare, each with its marks and those of the classes up to it.
//! `proofs/VariantChains.antt` has the chain of a variant as the front part of the line's chain that is there, and what is there of
//! `along` as what that part declares. `proofs/FirstDeclared.antt` shows once, for fields and methods, that the first that is there is
//! what the variant's look-up finds; `proofs/FirstItems.antt` that the gates tell the first. `proofs/Reached.antt` is of superclasses along
//! a chain, `proofs/FrontParts.antt` of its length, `proofs/AllFields.antt` of all its fields, and `proofs/MarkGates.antt` of marks as gates.
#![tactic(auto)]

mod all_fields;
mod fields;
mod firsts;
mod marked;
mod marks;
mod methods;
mod parts;
mod subtypes;

pub use all_fields::all_fields_within;
pub use fields::field_within;
pub use marked::Marked;
pub use marks::holds;
pub use methods::{Declaration, method_within};
pub use parts::parts_within;
pub use subtypes::{extended_within, known_within, subtype_within};
