//! The form of case files: texts that say what is run, and what must come.
//!
//! A case file is a list of lines. A line that begins with one of `|:+-*#` is content; each other line begins a section, whose
//! content stands below it. A section `case NAME` begins a case. [`sections_of`] cuts a file into its sections, which borrow from
//! its text; [`Content`] is what lines of content stand for; [`words_of`] cuts a line into words. An [`Answer`] is what a case wants or
//! what comes of it, and [`print_difference`] says how two differ.
#![tactic(auto)]

mod answer;
mod content;
mod difference;
mod escapes;
mod fault;
mod section;
mod words;

pub use answer::Answer;
pub use content::Content;
pub use difference::print_difference;
pub use fault::CaseFault;
pub use section::{Case, Section, lines_of, sections_of};
pub use words::words_of;
