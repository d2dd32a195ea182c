//! What is to be read: a project, or a part of one.

ghost use Rattle.std.specs.Prelude.{◌≡◌, true, IfOk, is_some};
ghost use Rattle.cfj_words.specs.Tokens.{Id};
ghost use Rattle.fj_parser.specs.Goals.{step_for, takes_name_for};
ghost use Rattle.fj_parser.specs.GoalViews.{Does, GoesFor};
ghost use Rattle.fj_machine.specs.MachineViews.{machine_seen, names_fit_in, IsRoomy};
ghost use Rattle.fj_symbols.specs.Views.{is_read, symbol_seen};

use crate::passage::{self, Passage};
use cfj_model::is_identifier;
use fj_machine::{Machine, Mode};
use fj_symbols::Symbol;
use std::alloc::{AllocError, Global};

/// What is to be read.
#[derive(Clone, Copy)]
pub enum Goal {
    /// A whole project.
    Project,
    /// A feature model.
    Model,
    /// A class.
    Class,
    /// The constructor of a class.
    Constructor,
    /// A field.
    Field,
    /// A method.
    Method,
    /// A field or a method.
    Member,
    /// A name.
    Name,
    /// An expression without marks.
    Expression,
}

impl Goal {
    /// What a token does.
    fn passage(self, machine: &Machine<'_>, symbol: Symbol<'_>) -> Passage
        ensures { Does result self (machine_seen machine.now) (symbol_seen symbol.entry) }
    {
        match self {
            Goal::Project => Passage::Steps,
            Goal::Model => passage::in_model(machine, symbol),
            Goal::Class => passage::in_class(machine, symbol),
            Goal::Constructor => passage::in_constructor(machine, symbol),
            Goal::Field => passage::in_field(machine, symbol),
            Goal::Method => passage::in_method(machine, symbol),
            Goal::Member => passage::in_member(machine, symbol),
            Goal::Name => passage::in_name(machine, symbol),
            Goal::Expression => passage::in_expression(machine, symbol),
        }
    }

    /// Goes on by one token; `false` where no text of this kind can.
    #[inline(always)]
    pub fn step<'a>(
        self,
        alloc: Global,
        machine: &mut Machine<'a>,
        symbol: Symbol<'a>,
    ) -> Result<bool, AllocError>
        requires read { is_read (symbol_seen symbol) ≡ true }
        requires named { names_fit_in machine.old.mode (machine_seen machine.old) (symbol_seen symbol) ≡ true }
        requires room { IsRoomy (machine_seen machine.old) }
        ensures { IfOk result (λ goes. GoesFor self goes (machine_seen machine.old) (symbol_seen symbol.entry) (machine_seen machine.new)) }
    {
        match self {
            Goal::Project => machine.step(alloc, symbol),
            _ => self.step_alone(alloc, machine, symbol),
        }
    }

    #[inline(never)]
    fn step_alone<'a>(
        self,
        alloc: Global,
        machine: &mut Machine<'a>,
        symbol: Symbol<'a>,
    ) -> Result<bool, AllocError>
        requires read { is_read (symbol_seen symbol) ≡ true }
        requires named { names_fit_in machine.old.mode (machine_seen machine.old) (symbol_seen symbol) ≡ true }
        requires room { IsRoomy (machine_seen machine.old) }
        ensures { IfOk result (λ goes. GoesFor self goes (machine_seen machine.old) (symbol_seen symbol.entry) (machine_seen machine.new)) }
    {
        match self.passage(machine, symbol) {
            Passage::Stops => Ok(false),
            Passage::Ends => {
                machine.mode = Mode::AtEnd;
                Ok(true)
            }
            Passage::EndsField => {
                machine.close_single_field(alloc)?;
                Ok(true)
            }
            Passage::EndsExpression => machine.step(alloc, Symbol::Semicolon),
            Passage::Steps => machine.step(alloc, symbol),
        }
    }

    /// Whether this identifier could stand next.
    pub fn takes(self, machine: &Machine<'_>, name: &str) -> bool
        ensures { result ≡ is_some (step_for self machine.now.mode (machine_seen machine.now) (Id name.now)) }
    {
        match self.passage(machine, Symbol::Id(name)) {
            Passage::Stops => false,
            Passage::Steps => machine.takes(name),
            _ => true,
        }
    }

    /// Whether some identifier could stand next.
    pub fn takes_name(self, machine: &Machine<'_>) -> bool
        ensures { result ≡ takes_name_for self machine.now.mode (machine_seen machine.now) }
    {
        match (self, machine.mode) {
            // The class's name alone can, which may be a reserved word.
            (Goal::Constructor, Mode::InMembers) => is_identifier(machine.name),
            (Goal::Constructor, Mode::AfterType | Mode::InMethods) => false,
            (Goal::Field, Mode::InMembers) => machine.fields.is_empty(),
            (Goal::Method, Mode::InMethods) => machine.methods.is_empty(),
            (Goal::Member, Mode::InMethods) => {
                machine.fields.is_empty() && machine.methods.is_empty()
            }
            (Goal::Name, Mode::AfterType) => false,
            _ => machine.takes_name(),
        }
    }
}
