//! Views of a product line under a selection of its features.
//!
//! Rests on `cfj_model`, whose `specs/Projection.antt` says which nodes are present and what the variant of a selection is,
//! after CIDE (Kästner, Apel, Kuhlemann, ICSE 2008): a variant is made by removing each node that isn't present. This layer
//! promises exactly that variant, as a project of its own.
#![tactic(auto)]

mod class;
mod expr;
mod node;
mod variant;

pub use variant::project;
