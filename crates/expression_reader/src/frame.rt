//! What is open round the expression that is read.

use cfj_model::{Arg, Boxed, Colors, Expr, Items, Name};

/// What arguments are given to.
#[derive(Drop)]
pub enum Head {
    /// A call.
    OfCall {
        slot: u16,
        on: Boxed<Expr>,
        method: Name,
    },
    /// A `new`.
    OfNew {
        slot: u16,
        class: Name,
    },
}

/// What is open round the expression that is read.
#[derive(Drop)]
pub enum Frame {
    /// A bracket.
    InBracket,
    /// A cast, to the end of its operand.
    InCast {
        slot: u16,
        class: Name,
    },
    /// An argument list, with the arguments before the one that is read, and the colours of that one.
    InArgs {
        head: Head,
        done: Items<Arg>,
        colors: Colors,
    },
}
