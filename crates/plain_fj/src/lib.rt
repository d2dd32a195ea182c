//! Plain Featherweight Java: `every_break` says of a project at which nodes which rules break, `first_break` whether it is well
//! typed, and where it isn't, what breaks first. `judge_alone` judges an expression by itself, in which no variable has a type.
//! The law that a project is well typed exactly where no rule breaks in it stands beside it.
//!
//! # How it judges
//!
//! The `ClassTable` of a project is made once. Subtyping and the nearest declaration of a field or a method go along one chain of it, so
//! no look-up goes through the classes.
//!
//! `judge` goes down an expression and comes back with its type, if it has one; what breaks at its nodes it adds to a list, each with
//! the node's slot and in the order of the slots. Which variables there are is the `Scope`: those of a method, or none. `nodes`,
//! `calls` and `news` have a function for each kind of node, which makes this of what its parts came back with. `every_break` takes
//! the classes in order, and in each the class's own rules, its fields, its constructor and its methods. Of a method the body is
//! judged first, since one of the method's own rules asks for its type; but what breaks at the method and its parameters is listed
//! before what breaks in the body, which gets its sites then.
//!
//! # How it is proved
//!
//! Two definitions of `cfj_model/specs` are behind it. `Judging.antt` lists all pairs of a site and a rule, each with whether it
//! breaks, and `specs/Breaking.antt` picks those that do, of a project by their sites and of an expression by their slots; each
//! function is proved to add what its part of that list has. `Typing.antt` has the rules as relations, as they are published.
//! `proofs/Law.antt` shows that a project is well typed by these exactly where nothing in the list breaks: `Chains.antt` and
//! `Inherited.antt` of the look-ups, `Fitting.antt`, `Typed.antt` and `Clear.antt` of expressions, `Kept.antt` and `Quiet.antt` of
//! declarations.
#![tactic(auto)]

mod alone;
mod body;
mod calls;
mod classes;
mod ctors;
mod fields;
mod judge;
mod laws;
mod methods;
mod misfits;
mod news;
mod node_break;
mod nodes;
mod projects;
mod same_names;
mod site_break;
mod wanted;

pub use alone::{JudgedAlone, judge_alone};
pub use laws::well_typed_exactly;
pub use node_break::NodeBreak;
pub use projects::{every_break, first_break};
