//! A token with what it is in its text and its place, and lists of them.

ghost use Rattle.std.specs.Prelude.{◌≡◌, ◌∷◌, ◌++◌, [], OnOk, length, take};
ghost use Rattle.cfj_model.specs.Roles.{opens, other_token, var_name};
ghost use Rattle.expression_reader.specs.Machine.{settled};
ghost use Rattle.fj_machine.specs.Machine.{emitted, pending};
ghost use Rattle.fj_machine.specs.MachineViews.{machine_seen};
ghost use Rattle.fj_parser.specs.Listing.{Adds};
ghost use Rattle.fj_parser.specs.Waiting.{settled_places, settled_role, waiting_places, waiting_roles};
ghost use Rattle.fj_symbols.specs.Views.{role_seen, symbol_seen};

use crate::settle::{bracket_role, name_role};
use crate::waiting::{FirstName, OpenBracket, Waiting};
use expression_reader::Settling;
use fj_machine::Machine;
use fj_symbols::{Role, Symbol};
use std::alloc::AllocError;

/// A token of a text: what it is there, and its place.
#[derive(Clone, Copy)]
pub struct TokenRole<'a> {
    pub role: Role<'a>,
    /// The number of bytes before it.
    pub at: usize,
}

/// Adds a token.
#[tactic(auto, using(crate::proofs::Adding::added))]
fn add<'a>(list: &mut Vec<TokenRole<'a>>, role: Role<'a>, at: usize) -> Result<(), AllocError>
    ensures { OnOk result (Adds list.old.items (role_seen role.entry ∷ []) (at ∷ []) list.new.items) }
{
    list.push(TokenRole { role, at })?;
    Ok(())
}

/// Adds the bracket that waited, by what became of it.
fn add_bracket<'a>(
    list: &mut Vec<TokenRole<'a>>,
    settling: Settling,
    bracket: OpenBracket,
) -> Result<(), AllocError>
    ensures { OnOk result (Adds list.old.items (settled_role settling (opens bracket.depth) ∷ []) (bracket.at ∷ []) list.new.items) }
{
    add(list, bracket_role(settling, bracket.depth), bracket.at)
}

/// Adds the bracket and then the identifier in it.
fn add_both<'a>(
    list: &mut Vec<TokenRole<'a>>,
    settling: Settling,
    bracket: OpenBracket,
    name: FirstName<'a>,
) -> Result<(), AllocError>
    ensures { OnOk result (Adds list.old.items (settled_role settling (opens bracket.depth) ∷ settled_role settling (var_name name.entry.name.now) ∷ [])
        (bracket.at ∷ name.entry.at ∷ []) list.new.items) }
{
    add_bracket(list, settling, bracket)?;
    add(list, name_role(settling, name.name), name.at)
}

/// Adds these and the bracket that closes.
fn add_closed<'a>(
    list: &mut Vec<TokenRole<'a>>,
    settling: Settling,
    bracket: OpenBracket,
    name: FirstName<'a>,
    at: usize,
) -> Result<(), AllocError>
    ensures { OnOk result (Adds list.old.items
        (settled_role settling (opens bracket.depth) ∷ settled_role settling (var_name name.entry.name.now) ∷ other_token ∷ [])
        (bracket.at ∷ name.entry.at ∷ at ∷ []) list.new.items) }
{
    add_both(list, settling, bracket, name)?;
    add(list, Role::Other, at)
}

/// Adds those that waited, if they are settled.
fn add_waiting<'a>(
    list: &mut Vec<TokenRole<'a>>,
    settling: Settling,
    waiting: Waiting<'a>,
) -> Result<(), AllocError>
    ensures { OnOk result (Adds list.old.items (settled settling (waiting_roles waiting.entry)) (settled_places settling (waiting_places waiting.entry)) list.new.items) }
{
    if settling == Settling::Stays {
        return Ok(());
    }
    match waiting {
        Waiting::Nothing => Ok(()),
        Waiting::Bracket(bracket) => add_bracket(list, settling, bracket),
        Waiting::Name(bracket, name) => add_both(list, settling, bracket, name),
        Waiting::Closed(bracket, name, at) => add_closed(list, settling, bracket, name, at),
    }
}

/// Adds the tokens that this one settles, of those that waited and then itself.
pub fn add_settled<'a>(
    list: &mut Vec<TokenRole<'a>>,
    machine: &Machine<'a>,
    waiting: Waiting<'a>,
    symbol: Symbol<'a>,
    at: usize,
) -> Result<(), AllocError>
    requires { waiting_roles waiting ≡ pending (machine_seen machine.now) }
    ensures { OnOk result (Adds list.old.items (emitted (machine_seen machine.now) (symbol_seen symbol.entry))
        (take (length (emitted (machine_seen machine.now) (symbol_seen symbol.entry))) (waiting_places waiting.entry ++ at ∷ [])) list.new.items) }
{
    add_waiting(list, machine.settles(symbol), waiting)?;
    if machine.waits(symbol) {
        return Ok(());
    }
    add(list, machine.role(symbol), at)
}
