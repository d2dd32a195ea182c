//! Edits of a project: what each of them names, where two of them meet, and what those of whole classes and of members make of the
//! project.
//!
//! `Edit` of `cfj_model` is what a session asks for. Whether it may be done is judged in an order: first whether the project has what the
//! edit names, then whether another edit that came before changed the same spot, and at last what its text says. `specs/Named.antt` and
//! `Spots.antt` say the first two; neither test takes memory. `specs/Changes.antt` and `Members.antt` say what comes of an edit, and what
//! refuses it.
#![tactic(auto)]

mod classes;
mod found;
mod member_edits;
mod members;
mod naming;
mod refused;
mod spot;

pub use classes::{add_class, remove_class, set_constructor, set_super};
pub use found::has_site;
pub use member_edits::{add_member, remove_member, replace_member};
pub use naming::{finds, named};
pub use refused::EditRefused;
pub use spot::Spot;
