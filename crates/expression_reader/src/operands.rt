//! Where an expression begins: names, `this`, `new`, brackets and casts.

ghost use Rattle.std.specs.Prelude.{◌≡◌, ◌+◌, ◌<◌, ◌^◌, true, IfOk};
ghost use Rattle.cfj_words.specs.Names.{is_name};
ghost use Rattle.cfj_words.specs.Tokens.{ThisWord};
ghost use Rattle.cfj_model.specs.declared.expr.Expr.TheVariants as e;
ghost use Rattle.expression_reader.specs.Machine as machine;
ghost use Rattle.expression_reader.specs.Views.{is_short, moved, settles_short};
ghost use Rattle.expression_reader.specs.declared.mode.Mode.TheVariants as mode;
ghost use Rattle.fj_symbols.specs.Views.{is_name_token, is_read, symbol_seen};

use crate::frame::{Frame, Head};
use crate::mode::Mode;
use crate::reader::ExpressionReader;
use crate::roles::begins_operand;
use crate::word::Word;
use cfj_model::{Expr, Name};
use fj_symbols::{Symbol, name_of};
use std::alloc::{AllocError, Global};

impl ExpressionReader {
    pub(crate) fn begin(
        &mut self,
        alloc: Global,
        symbol: Symbol<'_>,
    ) -> Result<Option<Mode>, AllocError>
        requires named { is_name_token (symbol_seen symbol) ≡ true }
        requires room { self.old.slot + 1 < 2 ^ 16 }
        ensures { IfOk result (λ mode. moved mode self.new.frames self.new.slot ≡ machine.begin self.old.frames self.old.slot (symbol_seen symbol.entry)) }
    {
        match symbol {
            Symbol::Id(name) => self.variable(alloc, name),
            Symbol::This => self.this_word(alloc),
            Symbol::New => Ok(Some(Mode::AfterNew)),
            Symbol::OpenParen => Ok(Some(Mode::Paren)),
            _ => Ok(None),
        }
    }

    fn this_word(&mut self, alloc: Global) -> Result<Option<Mode>, AllocError>
        requires room { self.old.slot + 1 < 2 ^ 16 }
        ensures { IfOk result (λ mode. moved mode self.new.frames self.new.slot ≡ machine.begin self.old.frames self.old.slot ThisWord) }
    {
        self.variable(alloc, "this")
    }

    fn variable(&mut self, alloc: Global, name: &str) -> Result<Option<Mode>, AllocError>
        requires named { is_name name.now ≡ true }
        requires room { self.old.slot + 1 < 2 ^ 16 }
        ensures { IfOk result (λ mode. moved mode self.new.frames self.new.slot ≡ machine.go self.old.frames (Mode.After (e.Var self.old.slot name.now)) (self.old.slot + 1)) }
    {
        let slot = self.slot;
        let name = name_of(alloc, name)?;
        self.slot += 1;
        Ok(Some(Mode::After(Expr::Var { slot, name })))
    }

    pub(crate) fn paren(
        &mut self,
        alloc: Global,
        symbol: Symbol<'_>,
    ) -> Result<Option<Mode>, AllocError>
        requires read { is_read (symbol_seen symbol) ≡ true }
        requires room { self.old.slot + 1 < 2 ^ 16 }
        ensures { IfOk result (λ mode. moved mode self.new.frames self.new.slot ≡ machine.paren self.old.frames self.old.slot (symbol_seen symbol.entry)) }
    {
        match symbol {
            Symbol::Id(name) => {
                let name = Word::of(alloc, name)?;
                Ok(Some(Mode::ParenName(name)))
            }
            _ => {
                self.frames.push(Frame::InBracket)?;
                self.begin(alloc, symbol)
            }
        }
    }

    pub(crate) fn paren_name(
        &mut self,
        alloc: Global,
        name: Word,
        symbol: Symbol<'_>,
    ) -> Result<Option<Mode>, AllocError>
        requires short { settles_short (mode.ParenName name) (symbol_seen symbol) ≡ true }
        requires room { self.old.slot + 1 < 2 ^ 16 }
        ensures { IfOk result (λ mode. moved mode self.new.frames self.new.slot ≡ machine.paren_name name self.old.frames self.old.slot (symbol_seen symbol.entry)) }
    {
        match symbol {
            Symbol::CloseParen => Ok(Some(Mode::ParenClosed(name))),
            Symbol::Dot => {
                let name = name.into_name(alloc)?;
                let slot = self.slot;
                self.frames.push(Frame::InBracket)?;
                self.slot += 1;
                Ok(Some(Mode::AfterDot(Expr::Var { slot, name })))
            }
            _ => Ok(None),
        }
    }

    pub(crate) fn paren_closed(
        &mut self,
        alloc: Global,
        name: Word,
        symbol: Symbol<'_>,
    ) -> Result<Option<Mode>, AllocError>
        requires short { is_short name ≡ true }
        requires named { is_name_token (symbol_seen symbol) ≡ true }
        requires room { self.old.slot + 2 < 2 ^ 16 }
        ensures { IfOk result (λ mode. moved mode self.new.frames self.new.slot ≡ machine.paren_closed name self.old.frames self.old.slot (symbol_seen symbol.entry)) }
    {
        let name = name.into_name(alloc)?;
        let slot = self.slot;
        self.slot += 1;
        if begins_operand(symbol) {
            self.frames.push(Frame::InCast { slot, class: name })?;
            self.begin(alloc, symbol)
        } else {
            self.after(alloc, Expr::Var { slot, name }, symbol)
        }
    }

    pub(crate) fn after_new(
        &mut self,
        alloc: Global,
        symbol: Symbol<'_>,
    ) -> Result<Option<Mode>, AllocError>
        requires { is_name_token (symbol_seen symbol) ≡ true }
        ensures { IfOk result (λ mode. moved mode self.new.frames self.new.slot ≡ machine.after_new self.old.frames self.old.slot (symbol_seen symbol.entry)) }
    {
        match symbol {
            Symbol::Id(class) => {
                let class = name_of(alloc, class)?;
                Ok(Some(Mode::AfterClass(class)))
            }
            _ => Ok(None),
        }
    }

    pub(crate) fn after_class(&mut self, class: Name, symbol: Symbol<'_>) -> Option<Mode>
        requires { self.old.slot + 1 < 2 ^ 16 }
        ensures { moved result self.new.frames self.new.slot ≡ machine.after_class class self.old.frames self.old.slot (symbol_seen symbol.entry) }
    {
        match symbol {
            Symbol::OpenParen => {
                let slot = self.slot;
                self.slot += 1;
                Some(Mode::FirstArg(Head::OfNew { slot, class }))
            }
            _ => None,
        }
    }
}
