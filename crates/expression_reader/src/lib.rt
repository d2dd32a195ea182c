//! Reads one expression of coloured Featherweight Java, a token at a time.
//!
//! The reader is a push-down machine that never looks ahead: what needs a later token is a mode that waits. Behind a whole
//! expression it ends with the token `;`. It tells each token's role as soon as the role is settled. A bracket that opens where
//! an expression begins may be a cast's, which is known three tokens later; so up to three tokens wait at once.
#![tactic(auto)]

mod arguments;
mod chains;
mod frame;
mod laws;
mod mode;
mod operands;
mod reader;
mod roles;
mod stack;
mod word;

pub use laws::{counts_each, keeps_bodies, reads_exactly, reads_fronts, stands_before};
pub use reader::ExpressionReader;
pub use roles::Settling;
