//! The units of a project, its facts by their keys, and judgements that are honest by their type.
//!
//! `unit_facts` defines the units of a project, what each key of it holds, and when a judgement is honest. Here are the values: `units`
//! lists the units; `fact_at` looks at a fact where it stands in the project and takes no memory; a fact that is kept outlives the project
//! and shares its classes. Who has kept facts sees by `Fact::same` whether a later project still has them: contents are compared, never
//! addresses. A `Judged` rests on facts that are kept, and each of its readers says that it is honest.
//!
//! # How it is proved
//!
//! A fact is a part of the project: a class, or the place of a method in one. `specs/Parts.antt` says what a part holds. The signatures of a
//! name are compared in step, those passed over left out: `proofs/Signatures.antt` has what is left of both lists as the same exactly
//! where both lists are.
#![tactic(auto)]

mod fact;
mod facts_at;
mod judged;
mod part;
mod seen;
mod unit_list;

pub use fact::{Fact, FactRef};
pub use facts_at::fact_at;
pub use judged::{Judge, Judged};
pub use unit_list::units;
