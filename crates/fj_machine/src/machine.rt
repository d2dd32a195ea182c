//! The machine that reads one token at a time.

ghost use Rattle.std.specs.Prelude.{◌≡◌, ◌^◌, ◌<◌, true, IfOk, is_some, [], length};
ghost use Rattle.cfj_words.specs.Names.{is_name};
ghost use Rattle.cfj_words.specs.Tokens.{Id};
ghost use Rattle.fj_machine.specs.Machine as spec;

use crate::heads::{CONSTRAINT_WORD, FEATURES_WORD, FORMAT_WORD};
use crate::mode::{Mode, Node};
use crate::role::role_of;
use cfj_model::{
    Class, Colors, Constructor, FeatureModel, Field, Format, Formula, Items, Method, Param, Sent,
};
use expression_reader::{ExpressionReader, Settling};
use fj_symbols::{Features, Role, Symbol};
use formula_reader::FormulaReader;
use std::alloc::{AllocError, Global};
use std::mem;

/// What stands for a name that isn't in hand.
pub const NO_NAME: &str = "this";

/// The constructor of a class that isn't in hand; no memory is taken.
pub(crate) fn no_ctor(alloc: Global) -> Constructor
    ensures { result ≡ spec.no_ctor }
{
    Constructor {
        params: Items::of(Vec::new(alloc)),
        sends: Items::of(Vec::new(alloc)),
        assigns: Items::of(Vec::new(alloc)),
    }
}

/// The format, features, constraints and classes that are read, the formula in hand, the class in hand with its colours, the lists in
/// hand of its constructor or of a method, the constructor that is read, the method in hand with its colours and the
/// expression in hand, the colours of the marks in hand, the type and the name that were read last, and what was read last.
#[derive(Drop)]
pub struct Machine<'a> {
    pub mode: Mode,
    pub format: Format,
    pub features: Features<'a>,
    pub constraints: Vec<Formula>,
    pub formula: FormulaReader,
    pub classes: Vec<Class>,
    pub class_colors: Colors,
    pub name: &'a str,
    pub parent: &'a str,
    pub fields: Vec<Field>,
    pub params: Vec<Param>,
    pub sends: Vec<Sent>,
    pub assigns: Vec<Sent>,
    pub ctor: Constructor,
    pub methods: Vec<Method>,
    pub method_colors: Colors,
    pub result_type: &'a str,
    pub method: &'a str,
    pub expression: ExpressionReader,
    pub colors: Colors,
    pub of: &'a str,
    pub last: &'a str,
    ghost name_fits: { is_name name.now ≡ true },
    ghost parent_fits: { is_name parent.now ≡ true },
    ghost result_fits: { is_name result_type.now ≡ true },
    ghost method_fits: { is_name method.now ≡ true },
    ghost of_fits: { is_name of.now ≡ true },
    ghost last_fits: { is_name last.now ≡ true },
}

impl<'a> Machine<'a> {
    ghost use Rattle.fj_machine.specs.Machine.{of_parts};
    ghost use Rattle.fj_machine.specs.MachineViews.{machine_seen, names_fit_in, Goes, GoesIn, IsRoomy};
    ghost use Rattle.fj_symbols.specs.Views.{is_name_token, is_read, role_seen, symbol_seen};

    /// Before the first token; no memory is taken.
    pub fn new(alloc: Global) -> Machine<'a>
        ensures { machine_seen result ≡ spec.start }
    {
        Machine::beginning(
            alloc,
            Mode::Begin,
            Format::One,
            Features::new(alloc),
            NO_NAME,
        )
    }

    /// In this mode and this format, behind these features and within the class of this name; no memory is taken.
    pub fn beginning(
        alloc: Global,
        mode: Mode,
        format: Format,
        features: Features<'a>,
        name: &'a str,
    ) -> Machine<'a>
        requires { is_name name.now ≡ true }
        ensures { machine_seen result ≡ record (spec.behind format features.entry [] []) { mode = mode; name = name.entry.now } }
    {
        Machine {
            mode,
            format,
            features,
            constraints: Vec::new(alloc),
            formula: FormulaReader::new(alloc),
            classes: Vec::new(alloc),
            class_colors: Colors::empty(),
            name,
            parent: NO_NAME,
            fields: Vec::new(alloc),
            params: Vec::new(alloc),
            sends: Vec::new(alloc),
            assigns: Vec::new(alloc),
            ctor: no_ctor(alloc),
            methods: Vec::new(alloc),
            method_colors: Colors::empty(),
            result_type: NO_NAME,
            method: NO_NAME,
            expression: ExpressionReader::new(alloc),
            colors: Colors::empty(),
            of: NO_NAME,
            last: NO_NAME,
        }
    }

    /// The format, features, constraints and classes that are read.
    pub fn take_parts(&mut self, alloc: Global) -> (FeatureModel, Vec<Class>)
        ensures { of_parts result.0.format result.0.features result.0.constraints result.1.items ≡ spec.stands_for (machine_seen self.old) }
    {
        let features = mem::replace(&mut self.features, Features::new(alloc));
        let constraints = mem::replace(&mut self.constraints, Vec::new(alloc));
        let model = FeatureModel {
            format: self.format,
            features: Items::of(features.into_names()),
            constraints: Items::of(constraints),
        };
        (model, self.take_classes(alloc))
    }

    /// The classes that are read.
    pub fn take_classes(&mut self, alloc: Global) -> Vec<Class>
        ensures { result ≡ self.old.classes }
    {
        mem::replace(&mut self.classes, Vec::new(alloc))
    }

    /// The methods that are read.
    pub fn take_methods(&mut self, alloc: Global) -> Vec<Method>
        ensures { result ≡ self.old.methods }
    {
        mem::replace(&mut self.methods, Vec::new(alloc))
    }

    /// The fields and the methods that are read.
    pub fn take_members(&mut self, alloc: Global) -> (Vec<Field>, Vec<Method>)
        ensures fields { result.0 ≡ self.old.fields }
        ensures methods { result.1 ≡ self.old.methods }
    {
        let fields = mem::replace(&mut self.fields, Vec::new(alloc));
        (fields, self.take_methods(alloc))
    }

    /// The constructor that is read.
    pub fn take_ctor(&mut self, alloc: Global) -> Constructor
        ensures { result ≡ self.old.ctor }
    {
        mem::replace(&mut self.ctor, no_ctor(alloc))
    }

    /// What a token would be here; where it waits, what it is in a bracket.
    #[inline(always)]
    pub fn role(&self, symbol: Symbol<'a>) -> Role<'a>
        ensures { role_seen result ≡ spec.role (machine_seen self.now) (symbol_seen symbol.entry) }
    {
        match self.mode {
            Mode::InConstraint => self.formula.role(symbol),
            Mode::InExpression => self.expression.role(symbol),
            mode => role_of(mode, symbol),
        }
    }

    /// What becomes of the tokens that wait, by the next token.
    pub fn settles(&self, symbol: Symbol<'a>) -> Settling
        ensures { result ≡ spec.settles (machine_seen self.now) (symbol_seen symbol.entry) }
    {
        match self.mode {
            Mode::InExpression => self.expression.settles(symbol),
            _ => Settling::Stays,
        }
    }

    /// Whether the next token itself waits.
    pub fn waits(&self, symbol: Symbol<'a>) -> bool
        ensures { result ≡ spec.waits (machine_seen self.now) (symbol_seen symbol.entry) }
    {
        match self.mode {
            Mode::InExpression => self.expression.waits(symbol),
            _ => false,
        }
    }

    /// Whether some identifier could stand next.
    pub fn takes_name(&self) -> bool
        ensures { result ≡ spec.takes_name_in self.now.mode (machine_seen self.now) }
    {
        match self.mode {
            Mode::InConstraint => self.formula.takes_name(),
            Mode::InExpression => self.expression.takes_name(),
            mode => mode.takes_name(),
        }
    }

    /// Whether this identifier could stand next.
    pub fn takes(&self, name: &str) -> bool
        ensures { result ≡ is_some (spec.step (machine_seen self.now) (Id name.now)) }
    {
        match self.mode {
            Mode::Begin => {
                self.opens_format(name) || name == FEATURES_WORD || name == CONSTRAINT_WORD
            }
            Mode::Start => name == CONSTRAINT_WORD,
            Mode::InConstraint => self.formula.takes_name(),
            Mode::InExpression => self.expression.takes_name(),
            Mode::AfterEquals => name == self.last,
            mode => mode.takes_name(),
        }
    }

    /// Goes on by one token; `false` where no text of the grammar can.
    pub fn step(&mut self, alloc: Global, symbol: Symbol<'a>) -> Result<bool, AllocError>
        requires read { is_read (symbol_seen symbol) ≡ true }
        requires named { names_fit_in self.old.mode (machine_seen self.old) (symbol_seen symbol) ≡ true }
        requires room { IsRoomy (machine_seen self.old) }
        ensures { IfOk result (λ goes. Goes goes (machine_seen self.old) (symbol_seen symbol.entry) (machine_seen self.new)) }
    {
        match self.mode {
            Mode::Begin => Ok(self.begin(symbol)),
            Mode::AfterFormat => Ok(self.after_format(symbol)),
            Mode::AfterFeatures => self.after_features(alloc, symbol),
            Mode::AfterFeature => Ok(self.after_feature(symbol)),
            Mode::AfterFeatureComma => self.after_feature_comma(alloc, symbol),
            Mode::Start => Ok(self.at_start(symbol)),
            Mode::InConstraint => self.in_constraint(alloc, symbol),
            Mode::BetweenClasses => Ok(self.between_classes(symbol)),
            Mode::AfterAt(node, off) => Ok(self.after_at(node, off, symbol)),
            Mode::AfterMark(node) => self.after_mark(alloc, node, symbol),
            Mode::AfterMarkedType => Ok(self.after_marked_type(symbol)),
            Mode::AfterClass => Ok(self.after_class(symbol)),
            Mode::AfterClassName => Ok(self.after_class_name(symbol)),
            Mode::AfterExtends => Ok(self.after_extends(symbol)),
            Mode::AfterParent => Ok(self.after_parent(symbol)),
            Mode::InMembers => Ok(self.in_members(symbol)),
            Mode::AfterType => Ok(self.after_type(symbol)),
            Mode::AfterFieldName => self.after_field_name(alloc, symbol),
            Mode::InParams(owner) => Ok(self.in_params(owner, symbol)),
            Mode::AfterParamComma(owner) => Ok(self.after_param_comma(owner, symbol)),
            Mode::AfterParamType(owner) => self.after_param_type(alloc, owner, symbol),
            Mode::AfterParam(owner) => Ok(self.after_param(owner, symbol)),
            Mode::AfterParams(owner) => Ok(self.after_params(owner, symbol)),
            Mode::InBody => Ok(self.in_body(symbol)),
            Mode::AfterSuper => Ok(self.after_super(symbol)),
            Mode::InSends => self.in_sends(alloc, symbol),
            Mode::AfterSendComma => self.after_send_comma(alloc, symbol),
            Mode::AfterSend => Ok(self.after_send(symbol)),
            Mode::AfterSends => Ok(self.after_sends(symbol)),
            Mode::InAssigns => Ok(self.in_assigns(alloc, symbol)),
            Mode::AfterThis => Ok(self.after_this(symbol)),
            Mode::AfterThisDot => self.after_this_dot(alloc, symbol),
            Mode::AfterAssigned => Ok(self.after_assigned(symbol)),
            Mode::AfterEquals => Ok(self.after_equals(symbol)),
            Mode::AfterSecondName => Ok(self.after_second_name(symbol)),
            Mode::InMethods => self.in_methods(alloc, symbol),
            Mode::AfterResult => Ok(self.after_result(symbol)),
            Mode::AfterMethodName => Ok(self.after_method_name(symbol)),
            Mode::InMethodBody => Ok(self.in_method_body(symbol)),
            Mode::InExpression => self.in_expression(alloc, symbol),
            Mode::AfterBody => Ok(self.after_body(symbol)),
            Mode::AtEnd => Ok(false),
        }
    }

    fn after_mark(
        &mut self,
        alloc: Global,
        node: Node,
        symbol: Symbol<'a>,
    ) -> Result<bool, AllocError>
        requires named { is_name_token (symbol_seen symbol) ≡ true }
        requires room { length self.old.sends.items < 2 ^ 16 }
        ensures { IfOk result (λ goes. GoesIn (Mode.AfterMark node) goes (machine_seen self.old) (symbol_seen symbol.entry) (machine_seen self.new)) }
    {
        match node {
            Node::Class => Ok(self.after_mark_class(symbol)),
            Node::Member => Ok(self.after_mark_member(symbol)),
            Node::Method => Ok(self.after_mark_method(symbol)),
            Node::Param(owner) => Ok(self.after_mark_param(owner, symbol)),
            Node::Send => self.after_mark_send(alloc, symbol),
            Node::Assign => Ok(self.after_mark_assign(symbol)),
        }
    }
}
