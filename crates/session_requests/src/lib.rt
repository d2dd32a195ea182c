//! Requests: what a line of a session asks.
//!
//! A line is one JSON object with an `op` and the fields of that op, no more and no fewer. `read_request` tells the request, or the
//! first cause for which a line is none, in this order: it is no JSON, no object, has no string `op`, has an unknown one, lacks a
//! field, has a wrong value in one, has a member too many.
//!
//! Rests on `json_lines` for what a line is as JSON, and on `cfj_model` for edits, names and paths; nothing that these read is
//! read again here. `specs/Ops.antt` is the table of ops and fields, `Fields` says which values are right, `BadLines` and
//! `Requests` say what is told of data, and `Reads` of a line.
#![tactic(auto)]

mod bad_line;
mod edits;
mod field;
mod members;
mod op;
mod reading;
mod request;
mod spelled;
mod unread;
mod written;

pub use bad_line::BadLine;
pub use field::Field;
pub use op::{EditOp, Op};
pub use reading::{read_request, request_of};
pub use request::Request;
pub use written::{edit_value, written_is_asked};
