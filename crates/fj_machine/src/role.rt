//! The roles of tokens outside of formulas and expressions.

ghost use Rattle.std.specs.Prelude.{◌≡◌};
ghost use Rattle.fj_machine.specs.Machine.{name_role, token_role};
ghost use Rattle.fj_symbols.specs.Views.{role_seen, symbol_seen};

use crate::heads::FORMAT_WORD;
use crate::mode::{Mode, Node, Owner};
use fj_symbols::{Role, Symbol};

/// What an identifier is behind what was read last.
fn name_role<'a>(mode: Mode, name: &'a str) -> Role<'a>
    ensures { role_seen result ≡ name_role mode name.now }
{
    match mode {
        Mode::Begin if name == FORMAT_WORD => Role::FormatLine,
        Mode::AfterFeatures | Mode::AfterFeatureComma => Role::FeatureName(name),
        Mode::AfterAt(..) => Role::MarkName(name),
        Mode::AfterClass => Role::ClassName(name),
        Mode::AfterType | Mode::AfterMarkedType => Role::FieldName(name),
        Mode::AfterParamType(Owner::Constructor) => Role::ParamName(name),
        Mode::AfterParamType(Owner::Method) => Role::MethodParamName(name),
        Mode::InSends | Mode::AfterSendComma | Mode::AfterMark(Node::Send) => Role::SentName(name),
        Mode::AfterThisDot => Role::AssignedName(name),
        Mode::AfterResult => Role::MethodName(name),
        _ => Role::UsedName(name),
    }
}

/// What a token is behind what was read last, outside of formulas and expressions.
#[inline(always)]
pub fn role_of<'a>(mode: Mode, symbol: Symbol<'a>) -> Role<'a>
    ensures { role_seen result ≡ token_role mode (symbol_seen symbol.entry) }
{
    match symbol {
        Symbol::Id(name) => name_role(mode, name),
        Symbol::Bang => Role::Sign,
        _ => Role::Other,
    }
}
