//! The two literals of a clause that are watched.

ghost use Rattle.std.specs.Prelude.{◌≡◌, ◌⊎◌, true, false, IsTrue, IfSome, IfNone};
ghost use Rattle.cfj_logic.specs.UnitClauses.{IsFalse};
ghost use Rattle.cfj_words.specs.Lists.{Has};
ghost use Rattle.unit_propagation.specs.Watched.{IsOf, IsShort, AreTwoOf};

use crate::values::is_false;
use cfj_logic::Literal;

/// The two literals of a clause that are watched.
#[derive(Clone, Copy, Debug)]
pub(crate) struct Pair {
    pub(crate) first: Literal,
    pub(crate) second: Literal,
}

/// Whether the literal isn't this one, and isn't false.
fn is_watchable(values: &[Option<bool>], literal: Literal, other: Literal) -> bool
    ensures yes { result ≡ true → (literal ≡ other → ⊥) × (IsFalse values.now literal → ⊥) }
    ensures no { result ≡ false → (literal ≡ other) ⊎ IsFalse values.now literal }
{
    literal != other && !is_false(values, literal)
}

/// A literal of the clause other than this one, that isn't false.
pub(crate) fn find_watch(
    values: &[Option<bool>],
    clause: &[Literal],
    other: Literal,
) -> Option<Literal>
    ensures some { IfSome result (λ next. Has clause.now next × (next ≡ other → ⊥) × (IsFalse values.now next → ⊥)) }
    ensures none { IfNone result ((m : Literal) → Has clause.now m → (m ≡ other) ⊎ IsFalse values.now m) }
{
    for literal in clause {
        if is_watchable(values, *literal, other) {
            return Some(*literal);
        }
    }
    None
}

/// Whether the two are different literals.
fn differ(one: Literal, other: Literal) -> bool
    ensures yes { result ≡ true → one ≡ other → ⊥ }
    ensures no { result ≡ false → one ≡ other }
{
    one != other
}

/// A literal of the clause other than this one.
fn find_other(clause: &[Literal], first: Literal) -> Option<Literal>
    ensures some { IfSome result (λ second. Has clause.now second × (first ≡ second → ⊥)) }
    ensures none { IfNone result ((m : Literal) → Has clause.now m → first ≡ m) }
{
    for literal in clause {
        if differ(first, *literal) {
            return Some(*literal);
        }
    }
    None
}

/// The watched literal of a clause that isn't this one.
pub(crate) fn other_of(pair: Pair, literal: Literal) -> Literal
    ensures watched { IsOf result pair }
    ensures other { (pair.first ≡ pair.second → ⊥) → result ≡ literal → ⊥ }
{
    if pair.first == literal {
        pair.second
    } else {
        pair.first
    }
}

/// Two different literals of the clause, if it has them.
pub(crate) fn two_of(clause: &[Literal]) -> Option<Pair>
    ensures some { IfSome result (AreTwoOf clause.now) }
    ensures none { IfNone result (IsShort clause.now) }
{
    if clause.is_empty() {
        return None;
    }
    let first = clause[0];
    match find_other(clause, first) {
        Some(second) => Some(Pair { first, second }),
        None => None,
    }
}

/// Whether the clause has the literal.
fn has(clause: &[Literal], literal: Literal) -> bool
    ensures { result ≡ true → Has clause.now literal }
{
    for one in clause {
        if *one == literal {
            return true;
        }
    }
    false
}

/// Whether the two are different literals of the clause.
fn are_two_of(clause: &[Literal], pair: Pair) -> bool
    ensures { result ≡ true → AreTwoOf clause.now pair }
{
    pair.first != pair.second && has(clause, pair.first) && has(clause, pair.second)
}

/// Two different literals of the clause, if it has them: these if they are.
pub(crate) fn two_or_these(
    clause: &[Literal],
    first: Option<Literal>,
    second: Option<Literal>,
) -> Option<Pair>
    ensures some { IfSome result (AreTwoOf clause.now) }
    ensures none { IfNone result (IsShort clause.now) }
{
    match (first, second) {
        (Some(first), Some(second)) => {
            let pair = Pair { first, second };
            if are_two_of(clause, pair) {
                Some(pair)
            } else {
                two_of(clause)
            }
        }
        _ => two_of(clause),
    }
}
