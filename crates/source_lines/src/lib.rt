//! Lines from a source of bytes.
//!
//! Rests on `cide_io`, whose `Source` gives bytes in order, and on `memchr`. [`Lines`] takes one buffer at the start and no memory
//! later: each call of [`Lines::advance`] reads the next line into that buffer, or tells that it is longer than the limit, that the
//! input is at its end, or that the source failed. [`Lines::line`] then lends the line.
//!
//! In layers: `windows` has the buffer with the bytes that came and weren't passed yet; `first_line` takes pieces of a source
//! until the first line of such a window is whole, and has the only loop; `line_reader` is what callers see. Contracts see a reader
//! as a record (`specs/Readers.antt`) of what is left of the input, buffered or not, and of the line that was read last; and
//! `specs/LineReads.antt` says which line comes next. The laws tie that to the lines of a text (`specs/Texts.antt`), for a source
//! that tells what it has left.
#![tactic(auto)]

mod cut_source;
mod first_line;
mod laws;
mod line_reader;
mod reads;
mod windows;

pub use cut_source::CutSource;
pub use laws::{long_line_is_first, next_line_is_first};
pub use line_reader::{Lines, NoLines};
pub use reads::Read;
