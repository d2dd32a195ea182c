//! The values of literals.

ghost use Rattle.std.specs.Prelude.{◌≡◌, ◌↔◌, IsTrue, Some};
ghost use Rattle.cfj_logic.specs.UnitClauses.{value_of, IsFalse};

use cfj_logic::Literal;

/// The value of a variable, if it has one; none has one past the end.
pub(crate) fn value_of(values: &[Option<bool>], var: u64) -> Option<bool>
    ensures { result ≡ value_of values.now var }
{
    let at = var as usize;
    if at < values.len() { values[at] } else { None }
}

/// Whether the literal's variable has the literal's value.
pub(crate) fn is_true(values: &[Option<bool>], literal: Literal) -> bool
    ensures { IsTrue result ↔ (value_of values.now literal.var ≡ Some literal.on) }
{
    match value_of(values, literal.var) {
        Some(value) => value == literal.on,
        None => false,
    }
}

/// Whether the literal's variable has the other value.
pub(crate) fn is_false(values: &[Option<bool>], literal: Literal) -> bool
    ensures { IsTrue result ↔ IsFalse values.now literal }
{
    match value_of(values, literal.var) {
        Some(value) => value != literal.on,
        None => false,
    }
}
