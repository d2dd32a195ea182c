//! What a constructor sends.

ghost use Rattle.std.specs.Prelude.{◌≡◌, ◌^◌, ◌<◌, true, IfOk, OnOk, length};
ghost use Rattle.cfj_words.specs.Names.{is_name};
ghost use Rattle.fj_machine.specs.Machine as spec;
ghost use Rattle.fj_machine.specs.MachineViews.{machine_seen, GoesIn};
ghost use Rattle.fj_symbols.specs.Views.{symbol_seen, is_name_token};

use crate::machine::Machine;
use crate::mode::{Mode, Node};
use cfj_model::{Colors, Sent};
use fj_symbols::{Symbol, name_of};
use std::alloc::{AllocError, Global};

impl<'a> Machine<'a> {
    pub(crate) fn in_body(&mut self, symbol: Symbol<'a>) -> bool
        ensures { GoesIn Mode.InBody result (machine_seen self.old) (symbol_seen symbol.entry) (machine_seen self.new) }
    {
        match symbol {
            Symbol::Super => {
                self.mode = Mode::AfterSuper;
                true
            }
            _ => false,
        }
    }

    pub(crate) fn after_super(&mut self, symbol: Symbol<'a>) -> bool
        ensures { GoesIn Mode.AfterSuper result (machine_seen self.old) (symbol_seen symbol.entry) (machine_seen self.new) }
    {
        match symbol {
            Symbol::OpenParen => {
                self.mode = Mode::InSends;
                true
            }
            _ => false,
        }
    }

    pub(crate) fn in_sends(&mut self, alloc: Global, symbol: Symbol<'a>) -> Result<bool, AllocError>
        requires named { is_name_token (symbol_seen symbol) ≡ true }
        requires room { length self.old.sends.items < 2 ^ 16 }
        ensures { IfOk result (λ goes. GoesIn Mode.InSends goes (machine_seen self.old) (symbol_seen symbol.entry) (machine_seen self.new)) }
    {
        match symbol {
            Symbol::At => {
                self.mode = Mode::AfterAt(Node::Send, false);
                Ok(true)
            }
            Symbol::Id(name) => {
                self.push_sent(alloc, name)?;
                Ok(true)
            }
            Symbol::CloseParen => {
                self.mode = Mode::AfterSends;
                Ok(true)
            }
            _ => Ok(false),
        }
    }

    pub(crate) fn after_mark_send(
        &mut self,
        alloc: Global,
        symbol: Symbol<'a>,
    ) -> Result<bool, AllocError>
        requires named { is_name_token (symbol_seen symbol) ≡ true }
        requires room { length self.old.sends.items < 2 ^ 16 }
        ensures { IfOk result (λ goes. GoesIn (Mode.AfterMark Node.Send) goes (machine_seen self.old) (symbol_seen symbol.entry) (machine_seen self.new)) }
    {
        match symbol {
            Symbol::At => {
                self.mode = Mode::AfterAt(Node::Send, false);
                Ok(true)
            }
            Symbol::Id(name) => {
                self.push_sent(alloc, name)?;
                Ok(true)
            }
            _ => Ok(false),
        }
    }

    pub(crate) fn after_send_comma(
        &mut self,
        alloc: Global,
        symbol: Symbol<'a>,
    ) -> Result<bool, AllocError>
        requires named { is_name_token (symbol_seen symbol) ≡ true }
        requires room { length self.old.sends.items < 2 ^ 16 }
        ensures { IfOk result (λ goes. GoesIn Mode.AfterSendComma goes (machine_seen self.old) (symbol_seen symbol.entry) (machine_seen self.new)) }
    {
        match symbol {
            Symbol::At => {
                self.mode = Mode::AfterAt(Node::Send, false);
                Ok(true)
            }
            Symbol::Id(name) => {
                self.push_sent(alloc, name)?;
                Ok(true)
            }
            _ => Ok(false),
        }
    }

    fn push_sent(&mut self, alloc: Global, name: &str) -> Result<(), AllocError>
        requires named { is_name name.now ≡ true }
        requires room { length self.old.sends.items < 2 ^ 16 }
        ensures { OnOk result (machine_seen self.new ≡ spec.with_sent (machine_seen self.old) name.now) }
    {
        let name = name_of(alloc, name)?;
        self.sends.push(Sent {
            slot: self.sends.len() as u16,
            colors: self.colors,
            name,
        })?;
        self.colors = Colors::empty();
        self.mode = Mode::AfterSend;
        Ok(())
    }

    pub(crate) fn after_send(&mut self, symbol: Symbol<'a>) -> bool
        ensures { GoesIn Mode.AfterSend result (machine_seen self.old) (symbol_seen symbol.entry) (machine_seen self.new) }
    {
        match symbol {
            Symbol::Comma => {
                self.mode = Mode::AfterSendComma;
                true
            }
            Symbol::CloseParen => {
                self.mode = Mode::AfterSends;
                true
            }
            _ => false,
        }
    }

    pub(crate) fn after_sends(&mut self, symbol: Symbol<'a>) -> bool
        ensures { GoesIn Mode.AfterSends result (machine_seen self.old) (symbol_seen symbol.entry) (machine_seen self.new) }
    {
        match symbol {
            Symbol::Semicolon => {
                self.mode = Mode::InAssigns;
                true
            }
            _ => false,
        }
    }
}
