//! The methods of a class, and its end.

ghost use Rattle.std.specs.Prelude.{◌≡◌, ◌≤◌, true, IfOk, OnOk, length};
ghost use Rattle.expression_reader.specs.Machine as expression;
ghost use Rattle.expression_reader.specs.Views.{reader_seen, IsRoomy, settles_short};
ghost use Rattle.fj_machine.specs.Machine as spec;
ghost use Rattle.fj_machine.specs.MachineViews.{machine_seen, GoesIn};
ghost use Rattle.fj_symbols.specs.Views.{symbol_seen, is_name_token, is_read};

use crate::machine::{Machine, NO_NAME};
use crate::mode::{Mode, Node, Owner};
use crate::names::both_names;
use cfj_model::{Colors, Expr, Items, Method, Name};
use expression_reader::ExpressionReader;
use fj_symbols::Symbol;
use std::alloc::{AllocError, Global};
use std::mem;

impl<'a> Machine<'a> {
    pub(crate) fn in_methods(
        &mut self,
        alloc: Global,
        symbol: Symbol<'a>,
    ) -> Result<bool, AllocError>
        requires { is_name_token (symbol_seen symbol) ≡ true }
        ensures { IfOk result (λ goes. GoesIn Mode.InMethods goes (machine_seen self.old) (symbol_seen symbol.entry) (machine_seen self.new)) }
    {
        match symbol {
            Symbol::At => {
                self.mode = Mode::AfterAt(Node::Method, false);
                Ok(true)
            }
            Symbol::Id(of) => {
                self.of = of;
                self.mode = Mode::AfterResult;
                Ok(true)
            }
            Symbol::CloseBrace => {
                self.push_class(alloc)?;
                Ok(true)
            }
            _ => Ok(false),
        }
    }

    pub(crate) fn after_mark_method(&mut self, symbol: Symbol<'a>) -> bool
        requires { is_name_token (symbol_seen symbol) ≡ true }
        ensures { GoesIn (Mode.AfterMark Node.Method) result (machine_seen self.old) (symbol_seen symbol.entry) (machine_seen self.new) }
    {
        match symbol {
            Symbol::At => {
                self.mode = Mode::AfterAt(Node::Method, false);
                true
            }
            Symbol::Id(of) => {
                self.of = of;
                self.mode = Mode::AfterResult;
                true
            }
            _ => false,
        }
    }

    pub(crate) fn after_result(&mut self, symbol: Symbol<'a>) -> bool
        requires { is_name_token (symbol_seen symbol) ≡ true }
        ensures { GoesIn Mode.AfterResult result (machine_seen self.old) (symbol_seen symbol.entry) (machine_seen self.new) }
    {
        match symbol {
            Symbol::Id(name) => {
                self.method_colors = self.colors;
                self.result_type = self.of;
                self.method = name;
                self.colors = Colors::empty();
                self.of = NO_NAME;
                self.mode = Mode::AfterMethodName;
                true
            }
            _ => false,
        }
    }

    pub(crate) fn after_method_name(&mut self, symbol: Symbol<'a>) -> bool
        ensures { GoesIn Mode.AfterMethodName result (machine_seen self.old) (symbol_seen symbol.entry) (machine_seen self.new) }
    {
        match symbol {
            Symbol::OpenParen => {
                self.mode = Mode::InParams(Owner::Method);
                true
            }
            _ => false,
        }
    }

    pub(crate) fn in_method_body(&mut self, symbol: Symbol<'a>) -> bool
        ensures { GoesIn Mode.InMethodBody result (machine_seen self.old) (symbol_seen symbol.entry) (machine_seen self.new) }
    {
        match symbol {
            Symbol::Return => {
                self.mode = Mode::InExpression;
                true
            }
            _ => false,
        }
    }

    pub(crate) fn in_expression(
        &mut self,
        alloc: Global,
        symbol: Symbol<'a>,
    ) -> Result<bool, AllocError>
        requires read { is_read (symbol_seen symbol) ≡ true }
        requires short { settles_short (reader_seen self.old.expression).mode (symbol_seen symbol) ≡ true }
        requires features { length self.old.features ≤ 128 }
        requires room { IsRoomy (reader_seen self.old.expression) }
        ensures { IfOk result (λ goes. GoesIn Mode.InExpression goes (machine_seen self.old) (symbol_seen symbol.entry) (machine_seen self.new)) }
    {
        if !self.expression.step(alloc, &self.features, symbol)? {
            return Ok(false);
        }
        if self.expression.is_done() {
            self.close_expression(alloc)?;
        }
        Ok(true)
    }

    /// The expression in hand is whole.
    fn close_expression(&mut self, alloc: Global) -> Result<(), AllocError>
        requires { expression.is_done (reader_seen self.old.expression) ≡ true }
        ensures { OnOk result (machine_seen self.new ≡ spec.after_expression (machine_seen self.old) (reader_seen self.old.expression) (expression.expression (reader_seen self.old.expression))) }
    {
        // The names first: no expression is in hand then where there is no memory for one.
        let (result_type, name) = both_names(alloc, self.result_type, self.method)?;
        let expression = mem::replace(&mut self.expression, ExpressionReader::new(alloc));
        match expression.into_expr() {
            Some(body) => self.push_method(alloc, result_type, name, body),
            None => Ok(()),
        }
    }

    fn push_method(
        &mut self,
        alloc: Global,
        result_type: Name,
        name: Name,
        body: Expr,
    ) -> Result<(), AllocError>
        requires expression { reader_seen self.old.expression ≡ expression.start }
        requires result_type { result_type ≡ self.old.result_type.now }
        requires name { name ≡ self.old.method.now }
        ensures { OnOk result (machine_seen self.new ≡ spec.with_method (machine_seen self.old) body) }
    {
        let params = mem::replace(&mut self.params, Vec::new(alloc));
        self.methods.push(Method {
            alt: 0,
            colors: self.method_colors,
            result: result_type,
            name,
            params: Items::of(params),
            body,
        })?;
        self.method_colors = Colors::empty();
        self.result_type = NO_NAME;
        self.method = NO_NAME;
        self.mode = Mode::AfterBody;
        Ok(())
    }

    pub(crate) fn after_body(&mut self, symbol: Symbol<'a>) -> bool
        ensures { GoesIn Mode.AfterBody result (machine_seen self.old) (symbol_seen symbol.entry) (machine_seen self.new) }
    {
        match symbol {
            Symbol::CloseBrace => {
                self.mode = Mode::InMethods;
                true
            }
            _ => false,
        }
    }
}
