//! The lines for the format and the features, marks, and the head of a class.

ghost use Rattle.std.specs.Prelude.{◌≡◌, ◌≤◌, true, IfOk, OnOk, length};
ghost use Rattle.cfj_words.specs.Names.{is_name};
ghost use Rattle.cfj_words.specs.Tokens.{Id};
ghost use Rattle.formula_reader.specs.Machine as formula;
ghost use Rattle.fj_machine.specs.Machine as spec;
ghost use Rattle.fj_machine.specs.MachineViews.{machine_seen, GoesIn};
ghost use Rattle.fj_symbols.specs.Views.{symbol_seen, is_name_token};

use crate::machine::Machine;
use crate::mode::{Mode, Node};
use cfj_model::{Colors, Format};
use fj_symbols::Symbol;
use formula_reader::FormulaReader;
use std::alloc::{AllocError, Global};
use std::mem;

/// The word of the line for format two.
pub(crate) const FORMAT_WORD: &str = "format2";

/// The word that begins the feature line.
pub(crate) const FEATURES_WORD: &str = "features";

/// The word that begins a constraint.
pub(crate) const CONSTRAINT_WORD: &str = "constraint";

impl<'a> Machine<'a> {
    pub(crate) fn begin(&mut self, symbol: Symbol<'a>) -> bool
        ensures { GoesIn Mode.Begin result (machine_seen self.old) (symbol_seen symbol.entry) (machine_seen self.new) }
    {
        match symbol {
            Symbol::Id(name) => self.opens_model(name),
            Symbol::At => {
                self.mode = Mode::AfterAt(Node::Class, false);
                true
            }
            Symbol::Class => {
                self.mode = Mode::AfterClass;
                true
            }
            Symbol::End => {
                self.mode = Mode::AtEnd;
                true
            }
            _ => false,
        }
    }

    /// It is the word of the line for format two, before which no such line stands.
    pub(crate) fn opens_format(&self, name: &str) -> bool
        ensures { result ≡ spec.opens_format (machine_seen self.now) name.now }
    {
        name == FORMAT_WORD && self.format == Format::One
    }

    /// The lines of a model begin with words that are identifiers elsewhere.
    fn opens_model(&mut self, name: &str) -> bool
        ensures { GoesIn Mode.Begin result (machine_seen self.old) (Id name.now) (machine_seen self.new) }
    {
        if self.opens_format(name) {
            self.mode = Mode::AfterFormat;
            return true;
        }
        if name == FEATURES_WORD {
            self.mode = Mode::AfterFeatures;
            return true;
        }
        self.opens_constraint(name)
    }

    fn opens_constraint(&mut self, name: &str) -> bool
        ensures { GoesIn Mode.Start result (machine_seen self.old) (Id name.now) (machine_seen self.new) }
    {
        if name != CONSTRAINT_WORD {
            return false;
        }
        self.mode = Mode::InConstraint;
        true
    }

    pub(crate) fn after_format(&mut self, symbol: Symbol<'a>) -> bool
        ensures { GoesIn Mode.AfterFormat result (machine_seen self.old) (symbol_seen symbol.entry) (machine_seen self.new) }
    {
        match symbol {
            Symbol::Semicolon => {
                self.format = Format::Two;
                self.mode = Mode::Begin;
                true
            }
            _ => false,
        }
    }

    pub(crate) fn after_features(
        &mut self,
        alloc: Global,
        symbol: Symbol<'a>,
    ) -> Result<bool, AllocError>
        requires { is_name_token (symbol_seen symbol) ≡ true }
        ensures { IfOk result (λ goes. GoesIn Mode.AfterFeatures goes (machine_seen self.old) (symbol_seen symbol.entry) (machine_seen self.new)) }
    {
        match symbol {
            Symbol::Id(name) => {
                self.push_feature(alloc, name)?;
                Ok(true)
            }
            _ => Ok(false),
        }
    }

    pub(crate) fn after_feature(&mut self, symbol: Symbol<'a>) -> bool
        ensures { GoesIn Mode.AfterFeature result (machine_seen self.old) (symbol_seen symbol.entry) (machine_seen self.new) }
    {
        match symbol {
            Symbol::Comma => {
                self.mode = Mode::AfterFeatureComma;
                true
            }
            Symbol::Semicolon => {
                self.mode = Mode::Start;
                true
            }
            _ => false,
        }
    }

    pub(crate) fn after_feature_comma(
        &mut self,
        alloc: Global,
        symbol: Symbol<'a>,
    ) -> Result<bool, AllocError>
        requires { is_name_token (symbol_seen symbol) ≡ true }
        ensures { IfOk result (λ goes. GoesIn Mode.AfterFeatureComma goes (machine_seen self.old) (symbol_seen symbol.entry) (machine_seen self.new)) }
    {
        match symbol {
            Symbol::Id(name) => {
                self.push_feature(alloc, name)?;
                Ok(true)
            }
            _ => Ok(false),
        }
    }

    fn push_feature(&mut self, alloc: Global, name: &'a str) -> Result<(), AllocError>
        requires { is_name name.now ≡ true }
        ensures { OnOk result (machine_seen self.new ≡ spec.with_feature (machine_seen self.old) name.now) }
    {
        self.features.add(alloc, name)?;
        self.mode = Mode::AfterFeature;
        Ok(())
    }

    pub(crate) fn at_start(&mut self, symbol: Symbol<'a>) -> bool
        ensures { GoesIn Mode.Start result (machine_seen self.old) (symbol_seen symbol.entry) (machine_seen self.new) }
    {
        match symbol {
            Symbol::Id(name) => self.opens_constraint(name),
            _ => self.between_classes(symbol),
        }
    }

    pub(crate) fn in_constraint(
        &mut self,
        alloc: Global,
        symbol: Symbol<'a>,
    ) -> Result<bool, AllocError>
        requires { length self.old.features ≤ 128 }
        ensures { IfOk result (λ goes. GoesIn Mode.InConstraint goes (machine_seen self.old) (symbol_seen symbol.entry) (machine_seen self.new)) }
    {
        if !self.formula.step(alloc, &self.features, symbol)? {
            return Ok(false);
        }
        if self.formula.is_done() {
            self.push_constraint(alloc)?;
        }
        Ok(true)
    }

    /// The formula in hand is whole.
    fn push_constraint(&mut self, alloc: Global) -> Result<(), AllocError>
        requires { formula.is_done self.old.formula ≡ true }
        ensures { OnOk result (machine_seen self.new ≡ spec.after_formula (machine_seen self.old) self.old.formula (formula.formula_of self.old.formula)) }
    {
        let formula = mem::replace(&mut self.formula, FormulaReader::new(alloc));
        if let Some(formula) = formula.into_formula() {
            self.constraints.push(formula)?;
            self.mode = Mode::Start;
        }
        Ok(())
    }

    pub(crate) fn between_classes(&mut self, symbol: Symbol<'a>) -> bool
        ensures { GoesIn Mode.BetweenClasses result (machine_seen self.old) (symbol_seen symbol.entry) (machine_seen self.new) }
    {
        match symbol {
            Symbol::At => {
                self.mode = Mode::AfterAt(Node::Class, false);
                true
            }
            Symbol::Class => {
                self.mode = Mode::AfterClass;
                true
            }
            Symbol::End => {
                self.mode = Mode::AtEnd;
                true
            }
            _ => false,
        }
    }

    pub(crate) fn after_at(&mut self, node: Node, off: bool, symbol: Symbol<'a>) -> bool
        requires { length self.old.features ≤ 128 }
        ensures { GoesIn (Mode.AfterAt node off) result (machine_seen self.old) (symbol_seen symbol.entry) (machine_seen self.new) }
    {
        match symbol {
            Symbol::Id(name) => {
                self.add_mark(node, off, name);
                true
            }
            Symbol::Bang if !off => {
                self.mode = Mode::AfterAt(node, true);
                true
            }
            _ => false,
        }
    }

    fn add_mark(&mut self, node: Node, off: bool, name: &str)
        requires { length self.old.features ≤ 128 }
        ensures { machine_seen self.new ≡ spec.with_mark node off (machine_seen self.old) name.now }
    {
        self.colors = self.features.marked(self.colors, name, off);
        self.mode = Mode::AfterMark(node);
    }

    pub(crate) fn after_mark_class(&mut self, symbol: Symbol<'a>) -> bool
        ensures { GoesIn (Mode.AfterMark Node.Class) result (machine_seen self.old) (symbol_seen symbol.entry) (machine_seen self.new) }
    {
        match symbol {
            Symbol::At => {
                self.mode = Mode::AfterAt(Node::Class, false);
                true
            }
            Symbol::Class => {
                self.class_colors = self.colors;
                self.colors = Colors::empty();
                self.mode = Mode::AfterClass;
                true
            }
            _ => false,
        }
    }

    pub(crate) fn after_class(&mut self, symbol: Symbol<'a>) -> bool
        requires { is_name_token (symbol_seen symbol) ≡ true }
        ensures { GoesIn Mode.AfterClass result (machine_seen self.old) (symbol_seen symbol.entry) (machine_seen self.new) }
    {
        match symbol {
            Symbol::Id(name) => {
                self.name = name;
                self.mode = Mode::AfterClassName;
                true
            }
            _ => false,
        }
    }

    pub(crate) fn after_class_name(&mut self, symbol: Symbol<'a>) -> bool
        ensures { GoesIn Mode.AfterClassName result (machine_seen self.old) (symbol_seen symbol.entry) (machine_seen self.new) }
    {
        match symbol {
            Symbol::Extends => {
                self.mode = Mode::AfterExtends;
                true
            }
            _ => false,
        }
    }

    pub(crate) fn after_extends(&mut self, symbol: Symbol<'a>) -> bool
        requires { is_name_token (symbol_seen symbol) ≡ true }
        ensures { GoesIn Mode.AfterExtends result (machine_seen self.old) (symbol_seen symbol.entry) (machine_seen self.new) }
    {
        match symbol {
            Symbol::Id(parent) => {
                self.parent = parent;
                self.mode = Mode::AfterParent;
                true
            }
            _ => false,
        }
    }

    pub(crate) fn after_parent(&mut self, symbol: Symbol<'a>) -> bool
        ensures { GoesIn Mode.AfterParent result (machine_seen self.old) (symbol_seen symbol.entry) (machine_seen self.new) }
    {
        match symbol {
            Symbol::OpenBrace => {
                self.mode = Mode::InMembers;
                true
            }
            _ => false,
        }
    }
}
