//! The assignments of a constructor.

ghost use Rattle.std.specs.Prelude.{◌≡◌, ◌^◌, ◌<◌, true, IfOk, OnOk, length};
ghost use Rattle.cfj_words.specs.Names.{is_name};
ghost use Rattle.cfj_words.specs.Tokens.{Id};
ghost use Rattle.fj_machine.specs.Machine as spec;
ghost use Rattle.fj_machine.specs.MachineViews.{machine_seen, GoesIn};
ghost use Rattle.fj_symbols.specs.Views.{symbol_seen, is_name_token};

use crate::machine::{Machine, NO_NAME};
use crate::mode::{Mode, Node};
use cfj_model::{Colors, Constructor, Items, Sent};
use fj_symbols::{Symbol, name_of};
use std::alloc::{AllocError, Global};
use std::mem;

impl<'a> Machine<'a> {
    pub(crate) fn in_assigns(&mut self, alloc: Global, symbol: Symbol<'a>) -> bool
        ensures { GoesIn Mode.InAssigns result (machine_seen self.old) (symbol_seen symbol.entry) (machine_seen self.new) }
    {
        match symbol {
            Symbol::At => {
                self.mode = Mode::AfterAt(Node::Assign, false);
                true
            }
            Symbol::This => {
                self.mode = Mode::AfterThis;
                true
            }
            Symbol::CloseBrace => {
                self.close_ctor(alloc);
                true
            }
            _ => false,
        }
    }

    /// The constructor in hand is whole.
    fn close_ctor(&mut self, alloc: Global)
        ensures { machine_seen self.new ≡ spec.with_ctor (machine_seen self.old) }
    {
        let params = mem::replace(&mut self.params, Vec::new(alloc));
        let sends = mem::replace(&mut self.sends, Vec::new(alloc));
        let assigns = mem::replace(&mut self.assigns, Vec::new(alloc));
        self.ctor = Constructor {
            params: Items::of(params),
            sends: Items::of(sends),
            assigns: Items::of(assigns),
        };
        self.mode = Mode::InMethods;
    }

    pub(crate) fn after_mark_assign(&mut self, symbol: Symbol<'a>) -> bool
        ensures { GoesIn (Mode.AfterMark Node.Assign) result (machine_seen self.old) (symbol_seen symbol.entry) (machine_seen self.new) }
    {
        match symbol {
            Symbol::At => {
                self.mode = Mode::AfterAt(Node::Assign, false);
                true
            }
            Symbol::This => {
                self.mode = Mode::AfterThis;
                true
            }
            _ => false,
        }
    }

    pub(crate) fn after_this(&mut self, symbol: Symbol<'a>) -> bool
        ensures { GoesIn Mode.AfterThis result (machine_seen self.old) (symbol_seen symbol.entry) (machine_seen self.new) }
    {
        match symbol {
            Symbol::Dot => {
                self.mode = Mode::AfterThisDot;
                true
            }
            _ => false,
        }
    }

    pub(crate) fn after_this_dot(
        &mut self,
        alloc: Global,
        symbol: Symbol<'a>,
    ) -> Result<bool, AllocError>
        requires named { is_name_token (symbol_seen symbol) ≡ true }
        requires room { length self.old.assigns.items < 2 ^ 16 }
        ensures { IfOk result (λ goes. GoesIn Mode.AfterThisDot goes (machine_seen self.old) (symbol_seen symbol.entry) (machine_seen self.new)) }
    {
        match symbol {
            Symbol::Id(name) => {
                self.push_assign(alloc, name)?;
                Ok(true)
            }
            _ => Ok(false),
        }
    }

    fn push_assign(&mut self, alloc: Global, name: &'a str) -> Result<(), AllocError>
        requires named { is_name name.now ≡ true }
        requires room { length self.old.assigns.items < 2 ^ 16 }
        ensures { OnOk result (machine_seen self.new ≡ spec.with_assign (machine_seen self.old) name.now) }
    {
        let assigned = name_of(alloc, name)?;
        self.assigns.push(Sent {
            slot: self.assigns.len() as u16,
            colors: self.colors,
            name: assigned,
        })?;
        self.colors = Colors::empty();
        self.last = name;
        self.mode = Mode::AfterAssigned;
        Ok(())
    }

    pub(crate) fn after_assigned(&mut self, symbol: Symbol<'a>) -> bool
        ensures { GoesIn Mode.AfterAssigned result (machine_seen self.old) (symbol_seen symbol.entry) (machine_seen self.new) }
    {
        match symbol {
            Symbol::Equals => {
                self.mode = Mode::AfterEquals;
                true
            }
            _ => false,
        }
    }

    /// Both names of an assignment are equal.
    pub(crate) fn after_equals(&mut self, symbol: Symbol<'a>) -> bool
        ensures { GoesIn Mode.AfterEquals result (machine_seen self.old) (symbol_seen symbol.entry) (machine_seen self.new) }
    {
        match symbol {
            Symbol::Id(name) => self.repeats(name),
            _ => false,
        }
    }

    fn repeats(&mut self, name: &str) -> bool
        ensures { GoesIn Mode.AfterEquals result (machine_seen self.old) (Id name.now) (machine_seen self.new) }
    {
        if name != self.last {
            return false;
        }
        self.last = NO_NAME;
        self.mode = Mode::AfterSecondName;
        true
    }

    pub(crate) fn after_second_name(&mut self, symbol: Symbol<'a>) -> bool
        ensures { GoesIn Mode.AfterSecondName result (machine_seen self.old) (symbol_seen symbol.entry) (machine_seen self.new) }
    {
        match symbol {
            Symbol::Semicolon => {
                self.mode = Mode::InAssigns;
                true
            }
            _ => false,
        }
    }
}
