//! Reads the text of a project, and of parts of one by themselves.
//!
//! The parser is a machine that takes one token a step and never looks ahead; beside it a tally keeps what has been met, and
//! tells which limit or rule a token breaks. Its answer is what the text stands for, or the text's first fault.
//!
//! # How it is proved
//!
//! `cfj_model/specs` says what a text of a language is, by concrete-syntax trees, and what the first fault of any other text is.
//! `specs/Machine.antt` of `fj_machine` says how the machine goes on; each step of its code is proved equal to it. `proofs/Complete.antt` shows
//! that the text of every tree is read, in the tree's roles and to its value; `Sound.antt` and `Law.antt` that what is read begins
//! the text of a tree, and that where the machine is stuck no text goes on; `Kept.antt` that what is read is what a project's type
//! keeps, and `KeptParts.antt` the same of each part. In between stands what holds of any language and any machine that reads it token by
//! token, by the facts of `specs/Laws.antt` alone: `Readers.antt`, `FirstFault.antt` and `Exact.antt` show that a text stands for one
//! value or has one first fault, and not both; `Progress.antt` and `TokenReads.antt` carry this over the loop, which speaks of the
//! machine alone; `Endings.antt` and `PartTexts.antt` say what its end means in a language.
//!
//! Parts of a project are read by the same machine and loop: `specs/Goals.antt` says where it starts for each and which tokens it
//! takes at the part's begin and end, `PartLanguages.antt` of `cfj_model` which texts they are, and a file for each part (`ClassLaw.antt`,
//! `NameLaw.antt` and so on) proves the facts of `specs/Laws.antt` for it. A formula's tokens are `formula_reader`'s, and an
//! expression's `expression_reader`'s, whose laws say the same of formulas and expressions: the machine hands them on up to the `;`.
//!
//! Up to three tokens of an expression wait: behind `(x)` the next token says whether the bracket was a cast's. `Waiting` keeps
//! them with their places, and their rules and limits are tested once their roles are settled, in the order of the text.
//! `Places.antt` shows that each stands where `Waiting` says.
//!
//! `token_roles` reads a project by the same machine and tells what each token of it is, and its place: it lists the tokens that a token
//! settles before the machine takes it. `specs/TokenRoles.antt` says what the list is, and `proofs/Listed.antt` that it is that.
#![tactic(auto)]

mod accept;
mod class_text;
mod constructor_text;
mod expr_text;
mod goal;
mod member_text;
mod model_text;
mod name_text;
mod only;
mod parser;
mod part;
mod passage;
mod reading;
mod results;
mod role_list;
mod settle;
mod token_role;
mod waiting;

pub use cfj_model::{FaultKind, LimitKind, Member, ParseFault, Want};
pub use class_text::parse_class;
pub use constructor_text::parse_constructor;
pub use expr_text::parse_expr;
pub use fj_symbols::Role;
pub use member_text::parse_member;
pub use model_text::parse_model;
pub use name_text::parse_name;
pub use parser::parse_project;
pub use role_list::token_roles;
pub use token_role::TokenRole;
