//! Counts the tokens that waited, once it is known what they are.

ghost use Rattle.std.specs.Prelude.{◌≡◌, [], ◌∷◌, true, IfOk};
ghost use Rattle.cfj_model.specs.Roles.{opens, var_name};
ghost use Rattle.expression_reader.specs.Machine.{settled};
ghost use Rattle.fj_parser.specs.Accepting.{AreCounted};
ghost use Rattle.fj_parser.specs.Waiting.{settled_role, waiting_left, waiting_places, waiting_roles};
ghost use Rattle.fj_tally.specs.Views.{tally_seen};
ghost use Rattle.fj_symbols.specs.Views.{is_identifier_role, role_seen};

use crate::waiting::{FirstName, OpenBracket, Refusal, Waiting};
use expression_reader::Settling;
use fj_symbols::Role;
use fj_tally::Tally;
use std::alloc::{AllocError, Global};

/// Counts a token in its role, or tells its fault.
fn count<'a>(
    alloc: Global,
    tally: &mut Tally<'a>,
    role: Role<'a>,
    at: usize,
) -> Result<Option<Refusal>, AllocError>
    requires { is_identifier_role (role_seen role) ≡ true }
    ensures { IfOk result (AreCounted (tally_seen tally.old) (role_seen role.entry ∷ []) (at ∷ []) (tally_seen tally.new)) }
{
    if tally.admit(role)? {
        return Ok(None);
    }
    let kind = tally.fault(alloc, role)?;
    Ok(Some(Refusal { at, kind }))
}

/// The role of the bracket, by what becomes of it.
pub fn bracket_role<'a>(settling: Settling, depth: usize) -> Role<'a>
    ensures { role_seen result ≡ settled_role settling (opens depth) }
{
    match settling {
        Settling::Cast => Role::Casts(depth),
        _ => Role::Opens(depth),
    }
}

/// The role of the identifier in it.
pub fn name_role<'a>(settling: Settling, name: &'a str) -> Role<'a>
    ensures { role_seen result ≡ settled_role settling (var_name name.now) }
{
    match settling {
        Settling::Cast => Role::UsedName(name),
        _ => Role::VarName(name),
    }
}

/// Counts the bracket.
fn count_bracket<'a>(
    alloc: Global,
    tally: &mut Tally<'a>,
    settling: Settling,
    bracket: OpenBracket,
) -> Result<Option<Refusal>, AllocError>
    ensures { IfOk result (AreCounted (tally_seen tally.old) (settled_role settling (opens bracket.depth) ∷ []) (bracket.at ∷ []) (tally_seen tally.new)) }
{
    count(
        alloc,
        tally,
        bracket_role(settling, bracket.depth),
        bracket.at,
    )
}

/// Counts the bracket and then the identifier in it.
fn count_both<'a>(
    alloc: Global,
    tally: &mut Tally<'a>,
    settling: Settling,
    bracket: OpenBracket,
    name: FirstName<'a>,
) -> Result<Option<Refusal>, AllocError>
    ensures { IfOk result (AreCounted (tally_seen tally.old)
        (settled_role settling (opens bracket.depth) ∷ settled_role settling (var_name name.entry.name.now) ∷ [])
        (bracket.at ∷ name.entry.at ∷ []) (tally_seen tally.new)) }
{
    if let Some(refusal) = count_bracket(alloc, tally, settling, bracket)? {
        return Ok(Some(refusal));
    }
    count(alloc, tally, name_role(settling, name.name), name.at)
}

/// Counts what waits and is settled so, or tells the first fault. The bracket that closes breaks nothing and counts for nothing.
pub fn settle<'a>(
    alloc: Global,
    tally: &mut Tally<'a>,
    waiting: Waiting<'a>,
    settling: Settling,
) -> Result<Option<Refusal>, AllocError>
    ensures { IfOk result (AreCounted (tally_seen tally.old) (settled settling (waiting_roles waiting.entry)) (waiting_places waiting.entry) (tally_seen tally.new)) }
{
    if settling == Settling::Stays {
        return Ok(None);
    }
    match waiting {
        Waiting::Nothing => Ok(None),
        Waiting::Bracket(bracket) => count_bracket(alloc, tally, settling, bracket),
        Waiting::Name(bracket, name) => count_both(alloc, tally, settling, bracket, name),
        Waiting::Closed(bracket, name, _) => count_both(alloc, tally, settling, bracket, name),
    }
}

/// Settles what waits, where the next token settles it: then nothing waits any more. The first fault, if there is one.
pub fn settle_waiting<'a>(
    alloc: Global,
    tally: &mut Tally<'a>,
    waiting: &mut Waiting<'a>,
    settling: Settling,
) -> Result<Option<Refusal>, AllocError>
    ensures counted { IfOk result (AreCounted (tally_seen tally.old) (settled settling (waiting_roles waiting.old)) (waiting_places waiting.old) (tally_seen tally.new)) }
    ensures left { IfOk result (λ _. waiting.new ≡ waiting_left settling waiting.old) }
{
    if settling == Settling::Stays {
        return Ok(None);
    }
    let found = settle(alloc, tally, *waiting, settling)?;
    *waiting = Waiting::Nothing;
    Ok(found)
}
