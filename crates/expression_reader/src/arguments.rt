//! Arguments and their marks.

ghost use Rattle.std.specs.Prelude.{◌≡◌, ◌+◌, ◌≤◌, ◌<◌, ◌^◌, [], ◌∷◌, ◌++◌, true, IfOk, length};
ghost use Rattle.expression_reader.specs.Machine as machine;
ghost use Rattle.expression_reader.specs.Views.{moved};
ghost use Rattle.fj_symbols.specs.Views.{is_name_token, symbol_seen};

use crate::frame::{Frame, Head};
use crate::mode::Mode;
use crate::reader::ExpressionReader;
use cfj_model::{Arg, Colors, Expr, Items};
use fj_symbols::{Features, Symbol};
use std::alloc::{AllocError, Global};

/// How many arguments an argument list has room for at first.
const USUAL_ARGS: usize = 2;

/// A call, or a `new`, with these arguments.
pub(crate) fn apply(head: Head, args: Items<Arg>) -> Expr
    ensures { result ≡ machine.applied head args }
{
    match head {
        Head::OfCall { slot, on, method } => Expr::Call {
            slot,
            on,
            method,
            args,
        },
        Head::OfNew { slot, class } => Expr::New { slot, class, args },
    }
}

/// The arguments with one more.
pub(crate) fn with_arg(
    args: Items<Arg>,
    colors: Colors,
    expr: Expr,
) -> Result<Items<Arg>, AllocError>
    ensures { IfOk result (λ all. all ≡ args ++ machine.colored_arg colors expr ∷ []) }
{
    let mut list = args.into_list();
    list.push(Arg { colors, expr })?;
    Ok(Items::of(list))
}

impl ExpressionReader {
    pub(crate) fn first_arg(
        &mut self,
        alloc: Global,
        head: Head,
        symbol: Symbol<'_>,
    ) -> Result<Option<Mode>, AllocError>
        requires named { is_name_token (symbol_seen symbol) ≡ true }
        requires room { self.old.slot + 1 < 2 ^ 16 }
        ensures { IfOk result (λ mode. moved mode self.new.frames self.new.slot ≡ machine.first_arg head self.old.frames self.old.slot (symbol_seen symbol.entry)) }
    {
        match symbol {
            Symbol::CloseParen => {
                let call = apply(head, Items::of(Vec::new(alloc)));
                Ok(Some(Mode::After(call)))
            }
            _ => {
                let done = Items::of(Vec::with_capacity(alloc, USUAL_ARGS)?);
                self.in_marks(alloc, head, done, Colors::empty(), symbol)
            }
        }
    }

    pub(crate) fn in_marks(
        &mut self,
        alloc: Global,
        head: Head,
        done: Items<Arg>,
        colors: Colors,
        symbol: Symbol<'_>,
    ) -> Result<Option<Mode>, AllocError>
        requires named { is_name_token (symbol_seen symbol) ≡ true }
        requires room { self.old.slot + 1 < 2 ^ 16 }
        ensures { IfOk result (λ mode. moved mode self.new.frames self.new.slot ≡ machine.in_marks head done colors self.old.frames self.old.slot (symbol_seen symbol.entry)) }
    {
        match symbol {
            Symbol::At => Ok(Some(Mode::AfterAt {
                head,
                done,
                colors,
                off: false,
            })),
            _ => {
                self.frames.push(Frame::InArgs { head, done, colors })?;
                self.begin(alloc, symbol)
            }
        }
    }

    pub(crate) fn after_at(
        &mut self,
        features: &Features<'_>,
        head: Head,
        done: Items<Arg>,
        colors: Colors,
        off: bool,
        symbol: Symbol<'_>,
    ) -> Option<Mode>
        requires { length features.now ≤ 128 }
        ensures { moved result self.new.frames self.new.slot ≡ machine.after_at features.now head done colors off self.old.frames self.old.slot (symbol_seen symbol.entry) }
    {
        match symbol {
            Symbol::Id(name) => {
                let colors = features.marked(colors, name, off);
                Some(Mode::InMarks { head, done, colors })
            }
            Symbol::Bang if !off => Some(Mode::AfterAt {
                head,
                done,
                colors,
                off: true,
            }),
            _ => None,
        }
    }
}
