//! The commands of the program, over any room and any two sinks.
//!
//! [`run`] takes the words that follow the program's name, does what they ask, and gives the status that the program
//! ends with: `specs/Endings.antt` lists the ways to end with their causes. It rests on `command_words` for what the words ask, on
//! `cide_io` for its ends, and on `fj_parser` for reading. A check rests on `plain_judge` for what is found, on `unit_facts` for its
//! text, and on `clean_law` for what no finding means; a migration on `fj_printer`; an export on `feature_model` and `variant_export`.
//! Work comes in a fixed order: the words, the project's text, its length, its grammar, the names of features, and then the command.
#![tactic(auto)]

mod check;
mod export;
mod migrate;
mod names;
mod project;
mod refusal;
mod running;
mod words;

pub use running::{run, run_plain};
