//! The fields of a class, and its end.

ghost use Rattle.std.specs.Prelude.{◌≡◌, ◌∷◌, [], ◌++◌, true, IfOk, OnOk};
ghost use Rattle.cfj_words.specs.Tokens.{OpenParen};
ghost use Rattle.fj_machine.specs.Machine as spec;
ghost use Rattle.fj_machine.specs.MachineViews.{machine_seen, GoesIn};
ghost use Rattle.fj_symbols.specs.Views.{symbol_seen, is_name_token};

use crate::machine::{Machine, NO_NAME, no_ctor};
use crate::mode::{Mode, Node, Owner};
use crate::names::both_names;
use cfj_model::{Class, Colors, Field, Items};
use fj_symbols::Symbol;
use member_alts::{number_fields, number_methods};
use std::alloc::{AllocError, Global};
use std::mem;

impl<'a> Machine<'a> {
    pub(crate) fn in_members(&mut self, symbol: Symbol<'a>) -> bool
        requires { is_name_token (symbol_seen symbol) ≡ true }
        ensures { GoesIn Mode.InMembers result (machine_seen self.old) (symbol_seen symbol.entry) (machine_seen self.new) }
    {
        match symbol {
            Symbol::At => {
                self.mode = Mode::AfterAt(Node::Member, false);
                true
            }
            Symbol::Id(of) => {
                self.of = of;
                self.mode = Mode::AfterType;
                true
            }
            _ => false,
        }
    }

    pub(crate) fn after_mark_member(&mut self, symbol: Symbol<'a>) -> bool
        requires { is_name_token (symbol_seen symbol) ≡ true }
        ensures { GoesIn (Mode.AfterMark Node.Member) result (machine_seen self.old) (symbol_seen symbol.entry) (machine_seen self.new) }
    {
        match symbol {
            Symbol::At => {
                self.mode = Mode::AfterAt(Node::Member, false);
                true
            }
            Symbol::Id(of) => {
                self.of = of;
                self.mode = Mode::AfterMarkedType;
                true
            }
            _ => false,
        }
    }

    pub(crate) fn after_type(&mut self, symbol: Symbol<'a>) -> bool
        requires { is_name_token (symbol_seen symbol) ≡ true }
        ensures { GoesIn Mode.AfterType result (machine_seen self.old) (symbol_seen symbol.entry) (machine_seen self.new) }
    {
        match symbol {
            Symbol::Id(name) => {
                self.last = name;
                self.mode = Mode::AfterFieldName;
                true
            }
            Symbol::OpenParen => self.opens_params(),
            _ => false,
        }
    }

    /// Behind marks the constructor can't stand, so this is a field.
    pub(crate) fn after_marked_type(&mut self, symbol: Symbol<'a>) -> bool
        requires { is_name_token (symbol_seen symbol) ≡ true }
        ensures { GoesIn Mode.AfterMarkedType result (machine_seen self.old) (symbol_seen symbol.entry) (machine_seen self.new) }
    {
        match symbol {
            Symbol::Id(name) => {
                self.last = name;
                self.mode = Mode::AfterFieldName;
                true
            }
            _ => false,
        }
    }

    /// The constructor has the name of its class.
    fn opens_params(&mut self) -> bool
        ensures { GoesIn Mode.AfterType result (machine_seen self.old) OpenParen (machine_seen self.new) }
    {
        if self.of != self.name {
            return false;
        }
        self.of = NO_NAME;
        self.mode = Mode::InParams(Owner::Constructor);
        true
    }

    pub(crate) fn after_field_name(
        &mut self,
        alloc: Global,
        symbol: Symbol<'a>,
    ) -> Result<bool, AllocError>
        ensures { IfOk result (λ goes. GoesIn Mode.AfterFieldName goes (machine_seen self.old) (symbol_seen symbol.entry) (machine_seen self.new)) }
    {
        match symbol {
            Symbol::Semicolon => {
                self.push_field(alloc)?;
                Ok(true)
            }
            _ => Ok(false),
        }
    }

    fn push_field(&mut self, alloc: Global) -> Result<(), AllocError>
        ensures { OnOk result (machine_seen self.new ≡ spec.with_field (machine_seen self.old)) }
    {
        let (of, name) = both_names(alloc, self.of, self.last)?;
        self.fields.push(Field {
            alt: 0,
            colors: self.colors,
            of,
            name,
        })?;
        self.colors = Colors::empty();
        self.of = NO_NAME;
        self.last = NO_NAME;
        self.mode = Mode::InMembers;
        Ok(())
    }

    /// The member in hand is a field, and no other member is read.
    pub fn close_single_field(&mut self, alloc: Global) -> Result<(), AllocError>
        ensures { OnOk result (machine_seen self.new ≡ spec.with_single_field (machine_seen self.old)) }
    {
        let (of, name) = both_names(alloc, self.result_type, self.method)?;
        self.fields.clear();
        self.fields.push(Field {
            alt: 0,
            colors: self.method_colors,
            of,
            name,
        })?;
        self.method_colors = Colors::empty();
        self.result_type = NO_NAME;
        self.method = NO_NAME;
        self.mode = Mode::InMethods;
        Ok(())
    }

    /// The class in hand is whole, and the alts of its members are known; nothing of it stays in hand.
    pub(crate) fn push_class(&mut self, alloc: Global) -> Result<(), AllocError>
        ensures { OnOk result (machine_seen self.new ≡ spec.with_class (machine_seen self.old)) }
    {
        number_fields(alloc, &mut self.fields)?;
        number_methods(alloc, &mut self.methods)?;
        let (name, parent) = both_names(alloc, self.name, self.parent)?;
        let fields = mem::replace(&mut self.fields, Vec::new(alloc));
        let ctor = mem::replace(&mut self.ctor, no_ctor(alloc));
        let methods = mem::replace(&mut self.methods, Vec::new(alloc));
        self.classes.push(Class {
            name,
            colors: self.class_colors,
            parent,
            fields: Items::of(fields),
            ctor,
            methods: Items::of(methods),
        })?;
        self.params.clear();
        self.sends.clear();
        self.assigns.clear();
        self.class_colors = Colors::empty();
        self.method_colors = Colors::empty();
        self.colors = Colors::empty();
        self.name = NO_NAME;
        self.parent = NO_NAME;
        self.result_type = NO_NAME;
        self.method = NO_NAME;
        self.of = NO_NAME;
        self.last = NO_NAME;
        self.mode = Mode::BetweenClasses;
        Ok(())
    }
}
