//! What stands behind a whole expression: members, and what ends it.

ghost use Rattle.std.specs.Prelude.{◌≡◌, ◌+◌, ◌<◌, ◌^◌, true, IfOk};
ghost use Rattle.cfj_model.specs.declared.expr.Expr.TheVariants as e;
ghost use Rattle.expression_reader.specs.Machine as machine;
ghost use Rattle.expression_reader.specs.Views.{moved, IsIn};
ghost use Rattle.fj_symbols.specs.Views.{is_name_token, symbol_seen};

use crate::arguments::{apply, with_arg};
use crate::frame::{Frame, Head};
use crate::mode::Mode;
use crate::reader::ExpressionReader;
use crate::stack::Stack;
use cfj_model::{Boxed, Colors, Expr, Name};
use fj_symbols::{Symbol, name_of};
use std::alloc::{AllocError, Global};

fn get(alloc: Global, slot: u16, on: Expr, field: Name) -> Result<Expr, AllocError>
    ensures { IfOk result (λ x. x ≡ e.Get slot on field) }
{
    Ok(Expr::Get {
        slot,
        on: Boxed::new(alloc, on)?,
        field,
    })
}

fn cast(alloc: Global, slot: u16, class: Name, on: Expr) -> Result<Expr, AllocError>
    ensures { IfOk result (λ x. x ≡ e.Cast slot class on) }
{
    Ok(Expr::Cast {
        slot,
        class,
        on: Boxed::new(alloc, on)?,
    })
}

/// Ends the casts round a whole expression: the expression with them, and the frame round it.
fn end_casts(
    alloc: Global,
    frames: &mut Stack<Frame>,
    mut x: Expr,
) -> Result<(Expr, Option<Frame>), AllocError>
    ensures { IfOk result (λ r. IsIn (machine.uncast x frames.old) r.0 r.1 frames.new) }
{
    'casts: while let Some(frame) = frames.pop() {
        match frame {
            Frame::InCast { slot, class } => x = cast(alloc, slot, class, x)?,
            _ => return Ok((x, Some(frame))),
        }
    }
    Ok((x, None))
}

impl ExpressionReader {
    pub(crate) fn after(
        &mut self,
        alloc: Global,
        x: Expr,
        symbol: Symbol<'_>,
    ) -> Result<Option<Mode>, AllocError>
        ensures { IfOk result (λ mode. moved mode self.new.frames self.new.slot ≡ machine.after x self.old.frames self.old.slot (symbol_seen symbol.entry)) }
    {
        match symbol {
            Symbol::Dot => Ok(Some(Mode::AfterDot(x))),
            Symbol::CloseParen => self.close(alloc, x),
            Symbol::Comma => self.comma(alloc, x),
            Symbol::Semicolon => self.finish(alloc, x),
            _ => Ok(None),
        }
    }

    fn close(&mut self, alloc: Global, x: Expr) -> Result<Option<Mode>, AllocError>
        ensures { IfOk result (λ mode. moved mode self.new.frames self.new.slot ≡ machine.close x self.old.slot self.old.frames) }
    {
        let (x, frame) = end_casts(alloc, &mut self.frames, x)?;
        match frame {
            Some(Frame::InBracket) => Ok(Some(Mode::After(x))),
            Some(Frame::InArgs { head, done, colors }) => {
                let args = with_arg(done, colors, x)?;
                let call = apply(head, args);
                Ok(Some(Mode::After(call)))
            }
            _ => Ok(None),
        }
    }

    fn comma(&mut self, alloc: Global, x: Expr) -> Result<Option<Mode>, AllocError>
        ensures { IfOk result (λ mode. moved mode self.new.frames self.new.slot ≡ machine.comma x self.old.slot self.old.frames) }
    {
        let (x, frame) = end_casts(alloc, &mut self.frames, x)?;
        match frame {
            Some(Frame::InArgs { head, done, colors }) => {
                let done = with_arg(done, colors, x)?;
                let colors = Colors::empty();
                Ok(Some(Mode::InMarks { head, done, colors }))
            }
            _ => Ok(None),
        }
    }

    fn finish(&mut self, alloc: Global, x: Expr) -> Result<Option<Mode>, AllocError>
        ensures { IfOk result (λ mode. moved mode self.new.frames self.new.slot ≡ machine.finish x self.old.frames) }
    {
        let (x, frame) = end_casts(alloc, &mut self.frames, x)?;
        match frame {
            None => {
                self.slot = 0;
                Ok(Some(Mode::Done(x)))
            }
            Some(_) => Ok(None),
        }
    }

    pub(crate) fn after_dot(
        &mut self,
        alloc: Global,
        x: Expr,
        symbol: Symbol<'_>,
    ) -> Result<Option<Mode>, AllocError>
        requires { is_name_token (symbol_seen symbol) ≡ true }
        ensures { IfOk result (λ mode. moved mode self.new.frames self.new.slot ≡ machine.after_dot x self.old.frames self.old.slot (symbol_seen symbol.entry)) }
    {
        match symbol {
            Symbol::Id(member) => {
                let member = name_of(alloc, member)?;
                Ok(Some(Mode::AfterMember(x, member)))
            }
            _ => Ok(None),
        }
    }

    pub(crate) fn after_member(
        &mut self,
        alloc: Global,
        x: Expr,
        member: Name,
        symbol: Symbol<'_>,
    ) -> Result<Option<Mode>, AllocError>
        requires { self.old.slot + 1 < 2 ^ 16 }
        ensures { IfOk result (λ mode. moved mode self.new.frames self.new.slot ≡ machine.after_member x member self.old.frames self.old.slot (symbol_seen symbol.entry)) }
    {
        let slot = self.slot;
        match symbol {
            Symbol::OpenParen => {
                let head = Head::OfCall {
                    slot,
                    on: Boxed::new(alloc, x)?,
                    method: member,
                };
                self.slot += 1;
                Ok(Some(Mode::FirstArg(head)))
            }
            _ => {
                let x = get(alloc, slot, x, member)?;
                self.slot += 1;
                self.after(alloc, x, symbol)
            }
        }
    }
}
