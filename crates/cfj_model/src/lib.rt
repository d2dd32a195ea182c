//! Coloured Featherweight Java: the data of a product line, and the definitions that every contract cites.
//!
//! A product line is a feature model and a list of classes, parts of which may be marked with features. `specs/` says what its
//! text is: the concrete syntax and what it stands for, the first fault of any other text, and the printed form. It also says what a
//! variant is, when one is well typed, and which rules break in it.
#![tactic(auto)]

mod class;
mod class_names;
mod colors;
mod edit;
mod expr;
mod fault;
mod feature_model;
mod limits;
mod member;
mod member_name;
mod path;
mod project;
mod signed;
mod site;
mod site_ref;
mod standing;
mod want;

pub use cfj_logic::{Clause, Clauses, FeatureSet, Formula, Literal, Log, Selection};
pub use cfj_words::{
    Boxed, Items, MOST_NAME_BYTES, Name, Text, continues_word, is_identifier, is_reserved,
    split_first, starts_word,
};
pub use class::{Class, Constructor, Field, Method, Param, Sent};
pub use colors::Colors;
pub use edit::Edit;
pub use expr::{Arg, Expr};
pub use fault::{FaultKind, LimitKind, ParseFault};
pub use feature_model::{FeatureModel, Format};
pub use limits::{
    MOST_CLASSES, MOST_FEATURES, MOST_FIELDS, MOST_FORMULA_NODES, MOST_IN_CTOR, MOST_METHODS,
    MOST_NEST, MOST_NODES, MOST_PARAMS, MOST_SIZE,
};
pub use member::Member;
pub use member_name::MemberName;
pub use path::read_site;
pub use project::Project;
pub use shared_list::Shared;
pub use signed::Signed;
pub use site::{Rule, Site};
pub use site_ref::SiteRef;
pub use standing::Standing;
pub use want::Want;
