//! What was read last.

use crate::frame::Head;
use crate::word::Word;
use cfj_model::{Arg, Colors, Expr, Items, Name};

/// What was read last, which says what may follow.
#[derive(Drop)]
pub enum Mode {
    /// Nothing: an expression must begin.
    Begin,
    /// The bracket that opens an argument list.
    FirstArg(Head),
    /// A comma between arguments, or a mark of an argument: a mark may follow, or the argument's expression.
    InMarks {
        head: Head,
        done: Items<Arg>,
        colors: Colors,
    },
    /// The `@` of a mark, or its `!`.
    AfterAt {
        head: Head,
        done: Items<Arg>,
        colors: Colors,
        /// The `!` was read.
        off: bool,
    },
    /// A bracket where an expression begins; it may be a cast's.
    Paren,
    /// And a name in it, whose role waits: it may be too long for that role.
    ParenName(Word),
    /// And its end.
    ParenClosed(Word),
    /// A whole expression, which may go on.
    After(Expr),
    /// And a dot.
    AfterDot(Expr),
    /// And a member's name.
    AfterMember(Expr, Name),
    /// `new`.
    AfterNew,
    /// And the name of a class.
    AfterClass(Name),
    /// The expression, and the token behind it.
    Done(Expr),
}
