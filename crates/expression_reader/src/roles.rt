//! The roles of tokens, and which of them wait.

ghost use Rattle.std.specs.Prelude.{◌≡◌, ◌≤◌, ◌^◌};
ghost use Rattle.expression_reader.specs.Machine as machine;
ghost use Rattle.expression_reader.specs.Views.{reader_seen};
ghost use Rattle.fj_symbols.specs.Views.{role_seen, symbol_seen};

use crate::mode::Mode;
use crate::reader::ExpressionReader;
use fj_symbols::{Role, Symbol};

/// What becomes of the tokens that wait.
#[derive(Clone, Copy, Debug, PartialEq, Eq)]
pub enum Settling {
    /// They wait on.
    Stays,
    /// They are a bracket's, in the roles that they have.
    Bracket,
    /// They are a cast's.
    Cast,
}

/// Whether the operand of a cast begins with this token.
pub(crate) fn begins_operand(symbol: Symbol<'_>) -> bool
    ensures { result ≡ machine.begins_operand (symbol_seen symbol.entry) }
{
    match symbol {
        Symbol::Id(_) | Symbol::This | Symbol::New | Symbol::OpenParen => true,
        _ => false,
    }
}

impl ExpressionReader {
    /// What becomes of the tokens that wait, by the next token.
    pub fn settles(&self, symbol: Symbol<'_>) -> Settling
        ensures { result ≡ machine.settles (reader_seen self.now) (symbol_seen symbol.entry) }
    {
        match (&self.mode, symbol) {
            (Mode::Paren, Symbol::Id(_)) => Settling::Stays,
            (Mode::ParenName(_), Symbol::CloseParen) => Settling::Stays,
            (Mode::Paren | Mode::ParenName(_), _) => Settling::Bracket,
            (Mode::ParenClosed(_), _) if begins_operand(symbol) => Settling::Cast,
            (Mode::ParenClosed(_), _) => Settling::Bracket,
            _ => Settling::Stays,
        }
    }

    /// Whether the next token itself waits.
    pub fn waits(&self, symbol: Symbol<'_>) -> bool
        ensures { result ≡ machine.waits (reader_seen self.now) (symbol_seen symbol.entry) }
    {
        match (&self.mode, symbol) {
            (Mode::Paren, Symbol::Id(_)) => true,
            (Mode::ParenName(_), Symbol::CloseParen) => true,
            (
                Mode::Begin
                | Mode::FirstArg(_)
                | Mode::InMarks { .. }
                | Mode::Paren
                | Mode::ParenClosed(_),
                Symbol::OpenParen,
            ) => true,
            _ => false,
        }
    }

    /// The role of the next token; where it waits, that of a bracket's.
    #[inline(always)]
    pub fn role<'a>(&self, symbol: Symbol<'a>) -> Role<'a>
        ensures { role_seen result ≡ machine.role (reader_seen self.now) (symbol_seen symbol.entry) }
    {
        match symbol {
            Symbol::Id(name) => self.name_role(name),
            Symbol::OpenParen => Role::Opens(self.depth() + 1),
            Symbol::This | Symbol::New | Symbol::Dot => Role::Node,
            Symbol::Bang => Role::Sign,
            _ => Role::Other,
        }
    }

    fn name_role<'a>(&self, name: &'a str) -> Role<'a>
        ensures { role_seen result ≡ machine.name_role self.now.mode name.now }
    {
        match self.mode {
            Mode::AfterAt { .. } => Role::MarkName(name),
            Mode::AfterDot(_) | Mode::AfterNew => Role::UsedName(name),
            _ => Role::VarName(name),
        }
    }

    /// How many argument lists, brackets and casts are open.
    #[tactic(auto, using(crate::proofs::Depths::open_length))]
    fn depth(&self) -> usize
        ensures depth { result ≡ machine.depth (reader_seen self.now) }
        ensures bound { result ≤ 2 ^ 63 }
    {
        let frames = self.frames.slice().len();
        match self.mode {
            Mode::FirstArg(_)
            | Mode::InMarks { .. }
            | Mode::AfterAt { .. }
            | Mode::Paren
            | Mode::ParenName(_)
            | Mode::ParenClosed(_) => frames + 1,
            _ => frames,
        }
    }

    /// Whether some identifier could stand next, and so each.
    pub fn takes_name(&self) -> bool
        ensures { result ≡ machine.takes_name (reader_seen self.now) }
    {
        match self.mode {
            Mode::Begin
            | Mode::FirstArg(_)
            | Mode::InMarks { .. }
            | Mode::AfterAt { .. }
            | Mode::Paren
            | Mode::ParenClosed(_)
            | Mode::AfterDot(_)
            | Mode::AfterNew => true,
            _ => false,
        }
    }
}
