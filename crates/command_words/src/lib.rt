//! What the words that follow the program's name ask.
//!
//! The first word names the command, and all the words, with that name as the first, are one command line of `clap`, which
//! takes the first as the program's name. [`read_words`] gives what is asked, or says that the words aren't a command's: the
//! first names none, `clap` refuses the words (`--help` is refused too), or a number isn't one to five ASCII digits in its
//! range. `specs/Asked.antt` says which words ask what.
//!
//! To add a command: a variant of [`Asked`], its `App` and its reading in `specs/Asked.antt`, and here, in a file of its own,
//! the same two as functions.
#![tactic(auto)]

mod asked;
mod check;
mod export;
mod line;
mod number;
mod reading;

pub use asked::{Asked, WordsFault};
pub use reading::read_words;
