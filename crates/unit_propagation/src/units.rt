//! What a clause comes to under some values.

ghost use Rattle.std.specs.Prelude.{◌≡◌, ◌↔◌, ◌<◌, length, IsTrue};
ghost use Rattle.cfj_logic.specs.UnitClauses.{with_true};
ghost use Rattle.cfj_logic.specs.Logs.{AreBelow};
ghost use Rattle.unit_propagation.specs.declared.units.Standing.TheVariants.{Open};
ghost use Rattle.unit_propagation.specs.Standings.{joined, Shows};

use cfj_logic::Literal;

/// What a clause comes to under the values that variables have.
#[derive(Clone, Copy)]
pub(crate) enum Standing {
    /// A literal is true, or two have no value.
    Open,
    /// All literals are false.
    Falsified,
    /// This literal has no value, and all others are false.
    Unit(Literal),
}

/// The standing of a clause with one more literal.
fn joined(standing: Standing, literal: Literal, value: Option<bool>) -> Standing
    ensures { result ≡ joined standing literal value }
{
    match standing {
        Standing::Open => Standing::Open,
        Standing::Falsified => match value {
            Some(value) if value == literal.on => Standing::Open,
            Some(_) => Standing::Falsified,
            None => Standing::Unit(literal),
        },
        Standing::Unit(unit) => match value {
            Some(value) if value == literal.on => Standing::Open,
            None if unit != literal => Standing::Open,
            _ => Standing::Unit(unit),
        },
    }
}

/// Whether it is an open clause's.
fn is_open(standing: Standing) -> bool
    ensures { IsTrue result ↔ (standing ≡ Open) }
{
    matches!(standing, Standing::Open)
}

/// What the clause comes to; where it is open, the literals behind make no difference.
pub(crate) fn standing_of(values: &[Option<bool>], clause: &[Literal]) -> Standing
    requires { AreBelow (length values.now) clause.now }
    ensures { Shows values.now clause.now result }
{
    let mut standing = Standing::Falsified;
    for literal in clause {
        if is_open(standing) {
            return Standing::Open;
        }
        standing = joined(standing, *literal, values[literal.var as usize]);
    }
    standing
}

/// Gives the literal's variable the literal's value.
pub(crate) fn make_true(values: &mut [Option<bool>], literal: Literal)
    requires { literal.var < length values.old }
    ensures { values.new ≡ with_true values.old literal }
{
    values[literal.var as usize] = Some(literal.on);
}
