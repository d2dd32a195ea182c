//! The reader of an expression.

ghost use Rattle.std.specs.Prelude.{◌≡◌, ◌+◌, ◌≤◌, ◌<◌, ◌^◌, true, IfOk, length};
ghost use Rattle.expression_reader.specs.Machine as machine;
ghost use Rattle.expression_reader.specs.Views.{reader_seen, moved, settles_short, Goes, IsRoomy};
ghost use Rattle.fj_symbols.specs.Views.{is_read, symbol_seen};

use crate::frame::Frame;
use crate::mode::Mode;
use crate::stack::Stack;
use cfj_model::Expr;
use fj_symbols::{Features, Symbol};
use std::alloc::{AllocError, Global};
use std::mem;

/// What has been read of an expression.
#[derive(Drop)]
pub struct ExpressionReader {
    pub(crate) frames: Stack<Frame>,
    pub(crate) mode: Mode,
    pub(crate) slot: u16,
}

impl ExpressionReader {
    /// Before the first token; no memory is taken.
    pub fn new(alloc: Global) -> ExpressionReader
        ensures { reader_seen result ≡ machine.start }
    {
        ExpressionReader {
            frames: Stack::new(alloc),
            mode: Mode::Begin,
            slot: 0,
        }
    }

    /// Goes on by one token; `false` where no text of an expression can.
    ///
    /// The names whose roles the token settles must be short. A name behind a bracket may be of any length as long as its role
    /// waits, since a fault of an earlier token may yet be told before that name's.
    ///
    /// Behind an error or `false` nothing is known of it.
    ///
    /// # Errors
    ///
    /// There is no memory for what the token adds.
    pub fn step(
        &mut self,
        alloc: Global,
        features: &Features<'_>,
        symbol: Symbol<'_>,
    ) -> Result<bool, AllocError>
        requires read { is_read (symbol_seen symbol) ≡ true }
        requires short { settles_short (reader_seen self.old).mode (symbol_seen symbol) ≡ true }
        requires few { length features.now ≤ 128 }
        requires room { IsRoomy (reader_seen self.old) }
        ensures { IfOk result (λ goes. Goes goes (machine.step features.now (reader_seen self.old) (symbol_seen symbol.entry)) (reader_seen self.new)) }
    {
        let mode = mem::replace(&mut self.mode, Mode::Begin);
        match self.next_mode(alloc, features, mode, symbol)? {
            Some(next) => {
                // The old mode is dropped by a call, which the check counts as one step; an assignment drops it part by part.
                mem::drop(mem::replace(&mut self.mode, next));
                Ok(true)
            }
            None => Ok(false),
        }
    }

    /// The mode behind a token in this mode.
    fn next_mode(
        &mut self,
        alloc: Global,
        features: &Features<'_>,
        mode: Mode,
        symbol: Symbol<'_>,
    ) -> Result<Option<Mode>, AllocError>
        requires read { is_read (symbol_seen symbol) ≡ true }
        requires short { settles_short mode (symbol_seen symbol) ≡ true }
        requires few { length features.now ≤ 128 }
        requires room { self.old.slot + 2 < 2 ^ 16 }
        ensures { IfOk result (λ next. moved next self.new.frames self.new.slot ≡ machine.step_in features.now mode self.old.frames self.old.slot (symbol_seen symbol.entry)) }
    {
        match mode {
            Mode::Begin => self.begin(alloc, symbol),
            Mode::FirstArg(head) => self.first_arg(alloc, head, symbol),
            Mode::InMarks { head, done, colors } => {
                self.in_marks(alloc, head, done, colors, symbol)
            }
            Mode::AfterAt {
                head,
                done,
                colors,
                off,
            } => { Ok(self.after_at(features, head, done, colors, off, symbol)) }
            Mode::Paren => self.paren(alloc, symbol),
            Mode::ParenName(name) => self.paren_name(alloc, name, symbol),
            Mode::ParenClosed(name) => self.paren_closed(alloc, name, symbol),
            Mode::After(x) => self.after(alloc, x, symbol),
            Mode::AfterDot(x) => self.after_dot(alloc, x, symbol),
            Mode::AfterMember(x, name) => self.after_member(alloc, x, name, symbol),
            Mode::AfterNew => self.after_new(alloc, symbol),
            Mode::AfterClass(name) => Ok(self.after_class(name, symbol)),
            Mode::Done(_) => Ok(None),
        }
    }

    /// Whether the expression is read, with the token behind it.
    pub fn is_done(&self) -> bool
        ensures { result ≡ machine.is_done (reader_seen self.now) }
    {
        matches!(self.mode, Mode::Done(_))
    }

    /// The expression, where it is read with the token behind it.
    pub fn into_expr(self) -> Option<Expr>
        ensures { result ≡ machine.expression (reader_seen self) }
    {
        let ExpressionReader {
            frames: _,
            mode,
            slot: _,
        } = self;
        match mode {
            Mode::Done(x) => Some(x),
            other => {
                // By a call, which the check counts as one step.
                mem::drop(other);
                None
            }
        }
    }
}
