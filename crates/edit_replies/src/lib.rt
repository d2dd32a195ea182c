//! What a desk answers to an edit.
//!
//! These are data alone: the desk says when each answer comes, and a session how it is written.
#![tactic(auto)]

mod edit_reply;

pub use edit_reply::{EditReply, Reason};
