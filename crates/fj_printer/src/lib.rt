//! Prints a product line, a plain one, the variant of a selection or a class into a sink.
//!
//! Rests on `cfj_model`, whose `specs/Print.antt` says what the printed form is and whose `specs/Projection.antt` says what a
//! variant is, on `feature_views` for the laws of what is present inside a present class, and on `cide_io`'s [`Sink`]. One
//! set of functions prints all nodes with their marks, or the present ones without (`Showing`). Each of them promises the same
//! of its own part of the printed form: after `Ok` exactly the part went behind what came before, and after a failure the sink
//! holds a proper prefix of it. Pieces are gathered in a buffer of a fixed size, so that a stream is given few and large ones.
//! No memory is taken.
//!
//! Whoever prints another form with names, expressions and presences in it puts its own pieces into a [`Buffer`] by [`add_text`],
//! [`add_all`], [`add_expr`] and [`add_presence`], and ends with [`flush`]. Contracts tell by `Adds` (`specs/Adds.antt`) what a call
//! did to the sink and to the bytes that wait in front of it, and the lemmas of `proofs/Composing.antt` put calls together.
//!
//! [`Sink`]: cide_io::Sink
#![tactic(auto)]

mod buffer;
mod classes;
mod ctors;
mod exprs;
mod features;
mod formulas;
mod marks;
mod methods;
mod pieces;
mod presence;
mod project;
mod showing;

pub use buffer::Buffer;
pub use exprs::add_expr;
pub use pieces::{add_all, add_text, flush};
pub use presence::add_presence;
pub use project::{print_class, print_migrated, print_plain, print_project, print_variant};
