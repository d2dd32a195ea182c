//! Lines of JSON, as a service writes and reads them: one value a line, in its canonical text.
//!
//! Rests on `serde_json`, whose definitions say which value a text is and which compact text a value has; nothing that it does
//! is written again here. This crate adds what makes a protocol of it: a line ends with a newline and holds no other, a line that
//! is no JSON is told apart from want of memory, and what is written reads back.
//!
//! `specs/Canonical.antt` says which data a service writes: natural numbers, and objects whose keys rise in byte order. The laws
//! are of these alone and need no code: `canonical_reads_back`, by which different data have different texts,
//! `canonical_line_is_read` and `canonical_is_one_line`.
#![tactic(auto)]

mod laws;
mod lines;

pub use laws::{canonical_is_one_line, canonical_line_is_read, canonical_reads_back};
pub use lines::{line_of, read_line};
