//! The tokens whose roles wait.

ghost use Rattle.std.specs.Prelude.{◌≡◌, true};
ghost use Rattle.cfj_words.specs.Names.{is_identifier};

use cfj_model::FaultKind;
use fj_symbols::Role;

/// A bracket where an expression begins: how many constructs are open with it, and its place.
#[derive(Clone, Copy)]
pub struct OpenBracket {
    pub depth: usize,
    pub at: usize,
}

/// An identifier that stands first in such a bracket, and its place.
#[derive(Clone, Copy)]
pub struct FirstName<'a> {
    pub name: &'a str,
    pub at: usize,
    ghost identifier: { is_identifier name.now ≡ true },
}

/// The tokens whose roles wait for what follows, with their places: they are a cast's, or an expression's in a bracket.
#[derive(Clone, Copy)]
pub enum Waiting<'a> {
    /// None.
    Nothing,
    /// A bracket where an expression begins.
    Bracket(OpenBracket),
    /// And an identifier in it.
    Name(OpenBracket, FirstName<'a>),
    /// And the bracket that closes, by its place.
    Closed(OpenBracket, FirstName<'a>, usize),
}

impl<'a> Waiting<'a> {
    ghost use Rattle.std.specs.Prelude.{◌∷◌, [], ◌++◌};
    ghost use Rattle.fj_parser.specs.Waiting.{may_wait, waiting_places, waiting_roles};
    ghost use Rattle.fj_symbols.specs.Views.{is_identifier_role, role_seen};

    /// These and one more token, in the role that it has in a bracket.
    pub fn with(self, role: Role<'a>, at: usize) -> Waiting<'a>
        requires shape { may_wait (waiting_roles self ++ role_seen role ∷ []) ≡ true }
        requires named { is_identifier_role (role_seen role) ≡ true }
        ensures roles { waiting_roles result ≡ waiting_roles self.entry ++ role_seen role.entry ∷ [] }
        ensures places { waiting_places result ≡ waiting_places self.entry ++ at ∷ [] }
    {
        match (self, role) {
            (Waiting::Nothing, Role::Opens(depth)) => Waiting::Bracket(OpenBracket { depth, at }),
            (Waiting::Bracket(bracket), Role::VarName(name)) => {
                Waiting::Name(bracket, FirstName { name, at })
            }
            (Waiting::Name(bracket, name), Role::Other) => Waiting::Closed(bracket, name, at),
            _ => unreachable!(),
        }
    }
}

/// A token that is refused: its place, and its fault.
#[derive(Drop)]
pub struct Refusal {
    pub at: usize,
    pub kind: FaultKind,
}
