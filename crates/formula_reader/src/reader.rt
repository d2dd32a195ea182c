//! The reader of a formula.

ghost use Rattle.std.specs.Prelude.{◌≡◌, ◌≤◌, IfOk, length};
ghost use Rattle.fj_symbols.specs.Views.{role_seen, symbol_seen};
ghost use Rattle.formula_reader.specs.Machine as spec;
ghost use Rattle.formula_reader.specs.Views.{Goes};

use crate::frame::Frame;
use crate::frames::{depth_behind_left, depth_within};
use crate::mode::Mode;
use crate::stack::Stack;
use crate::steps::next;
use cfj_model::Formula;
use fj_symbols::{Features, Role, Symbol};
use std::alloc::{AllocError, Global};
use std::marker::Model;
use std::mem;

/// A formula that is being read.
#[derive(Drop)]
pub struct FormulaReader {
    frames: Stack<Frame>,
    mode: Mode,
}

impl Model for FormulaReader {
    ghost use Rattle.std.specs.Coded.{codes};
    ghost use Rattle.cfj_logic.specs.contracts.formula.Formula as formula;
    ghost use Rattle.formula_reader.specs.Machine.{State, at};

    ghost Value = { State };

    ghost coded = { Prim.hlevel (codes, formula.the_row.coded) };

    ghost view = { λ r. at r.frames r.mode };
}

impl FormulaReader {
    /// Before the first token; no memory is taken.
    pub fn new(alloc: Global) -> FormulaReader
        ensures { result ≡ spec.start }
    {
        FormulaReader {
            frames: Stack::new(alloc),
            mode: Mode::Want,
        }
    }

    /// What a token would be here.
    pub fn role<'a>(&self, symbol: Symbol<'a>) -> Role<'a>
        ensures { role_seen result ≡ spec.role self.now (symbol_seen symbol.entry) }
    {
        match symbol {
            Symbol::Id(name) => Role::FormulaName(name),
            Symbol::True | Symbol::False | Symbol::Ampersand | Symbol::Bar | Symbol::DoubleArrow =>
                Role::FormulaNode,
            Symbol::Bang => Role::FormulaOpens(depth_within(self.frames.items()) + 1),
            Symbol::OpenParen => Role::Opens(depth_within(self.frames.items()) + 1),
            Symbol::Arrow => Role::FormulaOpens(depth_behind_left(self.frames.items()) + 1),
            _ => Role::Other,
        }
    }

    /// Whether an identifier could stand next.
    pub fn takes_name(&self) -> bool
        ensures { result ≡ spec.takes_name self.now }
    {
        matches!(self.mode, Mode::Want)
    }

    /// Whether the formula and its semicolon are read.
    pub fn is_done(&self) -> bool
        ensures { result ≡ spec.is_done self.now }
    {
        matches!(self.mode, Mode::Done(_))
    }

    /// Goes on by one token, over these features; `false` where no formula can. What could not go on is of no more use.
    ///
    /// # Errors
    ///
    /// There is no memory for the formula; then, too, the reader is of no more use.
    pub fn step(
        &mut self,
        alloc: Global,
        features: &Features<'_>,
        symbol: Symbol<'_>,
    ) -> Result<bool, AllocError>
        requires { length features.now ≤ 128 }
        ensures { IfOk result (λ goes. Goes features.now goes self.old (symbol_seen symbol.entry) self.new) }
    {
        let mode = mem::replace(&mut self.mode, Mode::Want);
        match next(alloc, &mut self.frames, mode, features, symbol)? {
            Some(mode) => {
                self.mode = mode;
                Ok(true)
            }
            None => Ok(false),
        }
    }

    /// The formula, once all of it is read.
    pub fn into_formula(self) -> Option<Formula>
        ensures { result ≡ spec.formula_of self }
    {
        let FormulaReader { frames: _, mode } = self;
        match mode {
            Mode::Done(formula) => Some(formula),
            _ => None,
        }
    }
}
