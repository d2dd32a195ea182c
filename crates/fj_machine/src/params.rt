//! The parameters of a constructor or a method.

ghost use Rattle.std.specs.Prelude.{◌≡◌, ◌^◌, ◌<◌, true, IfOk, OnOk, length};
ghost use Rattle.cfj_words.specs.Names.{is_name};
ghost use Rattle.fj_machine.specs.Machine as spec;
ghost use Rattle.fj_machine.specs.MachineViews.{machine_seen, GoesIn};
ghost use Rattle.fj_symbols.specs.Views.{symbol_seen, is_name_token};

use crate::machine::{Machine, NO_NAME};
use crate::mode::{Mode, Node, Owner};
use crate::names::both_names;
use cfj_model::{Colors, Param};
use fj_symbols::Symbol;
use std::alloc::{AllocError, Global};

impl<'a> Machine<'a> {
    pub(crate) fn in_params(&mut self, owner: Owner, symbol: Symbol<'a>) -> bool
        requires { is_name_token (symbol_seen symbol) ≡ true }
        ensures { GoesIn (Mode.InParams owner) result (machine_seen self.old) (symbol_seen symbol.entry) (machine_seen self.new) }
    {
        match symbol {
            Symbol::At => {
                self.mode = Mode::AfterAt(Node::Param(owner), false);
                true
            }
            Symbol::Id(of) => {
                self.of = of;
                self.mode = Mode::AfterParamType(owner);
                true
            }
            Symbol::CloseParen => {
                self.mode = Mode::AfterParams(owner);
                true
            }
            _ => false,
        }
    }

    pub(crate) fn after_mark_param(&mut self, owner: Owner, symbol: Symbol<'a>) -> bool
        requires { is_name_token (symbol_seen symbol) ≡ true }
        ensures { GoesIn (Mode.AfterMark (Node.Param owner)) result (machine_seen self.old) (symbol_seen symbol.entry) (machine_seen self.new) }
    {
        match symbol {
            Symbol::At => {
                self.mode = Mode::AfterAt(Node::Param(owner), false);
                true
            }
            Symbol::Id(of) => {
                self.of = of;
                self.mode = Mode::AfterParamType(owner);
                true
            }
            _ => false,
        }
    }

    pub(crate) fn after_param_comma(&mut self, owner: Owner, symbol: Symbol<'a>) -> bool
        requires { is_name_token (symbol_seen symbol) ≡ true }
        ensures { GoesIn (Mode.AfterParamComma owner) result (machine_seen self.old) (symbol_seen symbol.entry) (machine_seen self.new) }
    {
        match symbol {
            Symbol::At => {
                self.mode = Mode::AfterAt(Node::Param(owner), false);
                true
            }
            Symbol::Id(of) => {
                self.of = of;
                self.mode = Mode::AfterParamType(owner);
                true
            }
            _ => false,
        }
    }

    pub(crate) fn after_param_type(
        &mut self,
        alloc: Global,
        owner: Owner,
        symbol: Symbol<'a>,
    ) -> Result<bool, AllocError>
        requires named { is_name_token (symbol_seen symbol) ≡ true }
        requires room { length self.old.params.items < 2 ^ 16 }
        ensures { IfOk result (λ goes. GoesIn (Mode.AfterParamType owner) goes (machine_seen self.old) (symbol_seen symbol.entry) (machine_seen self.new)) }
    {
        match symbol {
            Symbol::Id(name) => {
                self.push_param(alloc, owner, name)?;
                Ok(true)
            }
            _ => Ok(false),
        }
    }

    fn push_param(&mut self, alloc: Global, owner: Owner, name: &str) -> Result<(), AllocError>
        requires named { is_name name.now ≡ true }
        requires room { length self.old.params.items < 2 ^ 16 }
        ensures { OnOk result (machine_seen self.new ≡ spec.with_param owner (machine_seen self.old) name.now) }
    {
        let (of, name) = both_names(alloc, self.of, name)?;
        self.params.push(Param {
            slot: self.params.len() as u16,
            colors: self.colors,
            of,
            name,
        })?;
        self.colors = Colors::empty();
        self.of = NO_NAME;
        self.mode = Mode::AfterParam(owner);
        Ok(())
    }

    pub(crate) fn after_param(&mut self, owner: Owner, symbol: Symbol<'a>) -> bool
        ensures { GoesIn (Mode.AfterParam owner) result (machine_seen self.old) (symbol_seen symbol.entry) (machine_seen self.new) }
    {
        match symbol {
            Symbol::Comma => {
                self.mode = Mode::AfterParamComma(owner);
                true
            }
            Symbol::CloseParen => {
                self.mode = Mode::AfterParams(owner);
                true
            }
            _ => false,
        }
    }

    pub(crate) fn after_params(&mut self, owner: Owner, symbol: Symbol<'a>) -> bool
        ensures { GoesIn (Mode.AfterParams owner) result (machine_seen self.old) (symbol_seen symbol.entry) (machine_seen self.new) }
    {
        match symbol {
            Symbol::OpenBrace => {
                self.mode = match owner {
                    Owner::Constructor => Mode::InBody,
                    Owner::Method => Mode::InMethodBody,
                };
                true
            }
            _ => false,
        }
    }
}
