//! Replies: the lines that a session answers.
//!
//! `reply_text` writes a reply as its line: one compact JSON object with its keys in byte order, and a newline. Behind the line of a
//! source or a variant stand as many bytes as it says, which are not written here.
//!
//! Rests on `json_lines` for the line of a value, on `session_requests` for bad lines and on `edit_replies` for answers to edits.
//! `specs/ReplyData.antt` is the table: the object of each reply.
#![tactic(auto)]

mod bad_lines;
mod edits;
mod reasons;
mod reply;
mod reply_line;
mod reports;
mod texts;

pub use edit_replies::{EditReply, Reason};
pub use edits::edit_reply_value;
pub use reply::{NameReason, Reply, VerdictWord};
pub use reply_line::reply_text;
