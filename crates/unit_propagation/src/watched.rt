//! Clauses with their watches, and what unit clauses among them lead to.

ghost use Rattle.std.specs.Prelude.{◌≡◌, ◌↔◌, ◌++◌, ◌∷◌, ℕ, List, [], length, All, IsTrue, IfOk, OnOk, IfSome, IfNone};
ghost use Rattle.cfj_logic.specs.declared.clauses.Literal.{Literal};
ghost use Rattle.cfj_logic.specs.UnitClauses.{Leads};
ghost use Rattle.cfj_logic.specs.Logs.{AreBelow};
ghost use Rattle.cfj_words.specs.Lists.{Has};
ghost use Rattle.unit_propagation.specs.Falsified.{IsFalsifiedAt};
ghost use Rattle.unit_propagation.specs.Standings.{AreOpen};
ghost use Rattle.unit_propagation.specs.Trails.{Grows};
ghost use Rattle.unit_propagation.specs.Watched.{AreTwoOf, IsShort, IsNoted, IsKept};

use crate::pair::{Pair, two_of, two_or_these};
use crate::trail::{Step, trail_of};
use crate::walk::follow;
use crate::watches::Watches;
use cfj_logic::Literal;
use cfj_words::Items;
use std::alloc::{AllocError, Global};
use std::marker::Model;

/// Clauses, two literals of each of which are watched.
///
/// Contracts see them as the list of the clauses.
#[derive(Debug, Drop)]
pub struct WatchedClauses {
    clauses: Vec<Items<Literal>>,
    watches: Watches,
    /// The places of the clauses that have no two different literals.
    short: Vec<usize>,
}

impl Model for WatchedClauses {
    ghost use Rattle.std.specs.Prelude.{List};
    ghost use Rattle.cfj_logic.specs.declared.clauses.Literal.{Literal};
    ghost use Rattle.unit_propagation.specs.Watched.{IsKept};

    ghost Value = { List (List Literal) };

    ghost view = { λ w. w.clauses.items };

    ghost invariant = { λ w. IsKept w.clauses.items w.watches w.short.items };
}

/// The two literals that are watched of the clause that comes at a place; of a short one the place is noted, and any pair
/// will do.
fn pair_of(short: &mut Vec<usize>, place: usize, two: Option<Pair>) -> Result<Pair, AllocError>
    ensures kept { (k : ℕ) → Has short.old.items k → Has short.new.items k }
    ensures noted { IfOk result (λ pair. (c : List Literal)
        → IfSome two (AreTwoOf c) → IfNone two (IsShort c) → IsNoted c pair short.new.items place) }
{
    match two {
        Some(pair) => Ok(pair),
        None => {
            short.push(place)?;
            let any = Literal { var: 0, on: false };
            Ok(Pair {
                first: any,
                second: any,
            })
        }
    }
}

/// Puts a clause at the end, two literals of which are watched if it has two.
fn put(
    clauses: &mut Vec<Items<Literal>>,
    watches: &mut Watches,
    short: &mut Vec<usize>,
    clause: Items<Literal>,
    two: Option<Pair>,
) -> Result<(), AllocError>
    requires kept { IsKept clauses.old.items watches.old short.old.items }
    requires some { IfSome two (AreTwoOf clause) }
    requires none { IfNone two (IsShort clause) }
    ensures kept { IsKept clauses.new.items watches.new short.new.items }
    ensures put { OnOk result (clauses.new.items ≡ clauses.old.items ++ clause ∷ []) }
{
    let pair = pair_of(short, clauses.len(), two)?;
    watches.add(clauses.as_slice(), pair)?;
    clauses.push(clause)?;
    Ok(())
}

impl WatchedClauses {
    /// These clauses.
    pub fn of(alloc: Global, clauses: &[Items<Literal>]) -> Result<WatchedClauses, AllocError>
        ensures { IfOk result (λ watched. watched ≡ clauses.now) }
    {
        let mut watched = WatchedClauses {
            clauses: Vec::new(alloc),
            watches: Watches::new(alloc),
            short: Vec::new(alloc),
        };
        'clauses: for clause in clauses {
            let mut copy = Vec::new(alloc);
            copy.extend_from_slice(clause.slice())?;
            watched.push(Items::of(copy))?;
        }
        Ok(watched)
    }

    /// Puts a clause at the end.
    pub fn push(&mut self, clause: Items<Literal>) -> Result<(), AllocError>
        ensures { OnOk result (self.new ≡ self.old ++ clause ∷ []) }
    {
        let two = two_of(clause.slice());
        put(
            &mut self.clauses,
            &mut self.watches,
            &mut self.short,
            clause,
            two,
        )
    }

    /// Whether unit clauses lead from these values to a falsified clause. The values are those that unit clauses lead to.
    ///
    /// In which order units are taken makes no difference to the answer (unit resolution is confluent: Dowling and Gallier,
    /// Journal of Logic Programming 1(3), 1984).
    pub fn propagate(
        &mut self,
        alloc: Global,
        values: &mut [Option<bool>],
    ) -> Result<bool, AllocError>
        requires { All (AreBelow (length values.old)) self.old }
        ensures leads { IfOk result (λ b. IsTrue b ↔ Leads self.old values.old) }
        ensures same { OnOk result (self.new ≡ self.old) }
    {
        let mut trail = trail_of(alloc, values)?;
        let found = self.extend(alloc, values, &mut trail)?;
        Ok(found.is_some())
    }

    /// Follows the values by unit clauses, until a clause is falsified, whose place is the result, or all are open.
    ///
    /// Each literal that is made true joins the trail.
    pub fn extend(
        &mut self,
        alloc: Global,
        values: &mut [Option<bool>],
        trail: &mut Vec<Step>,
    ) -> Result<Option<usize>, AllocError>
        requires { All (AreBelow (length values.old)) self.old }
        ensures grown { OnOk result (Grows self.old values.old trail.old.items values.new trail.new.items) }
        ensures falsified { IfOk result (λ found. IfSome found (λ place. IsFalsifiedAt self.old values.new place)) }
        ensures opened { IfOk result (λ found. IfNone found (AreOpen self.old values.new)) }
        ensures same { OnOk result (self.new ≡ self.old) }
    {
        follow(
            alloc,
            self.clauses.as_slice(),
            &mut self.watches,
            self.short.as_slice(),
            values,
            trail,
        )
    }

    /// The clauses, in order.
    pub fn clauses(&self) -> &[Items<Literal>]
        ensures { result.now ≡ self.now }
    {
        self.clauses.as_slice()
    }

    /// Puts a clause at the end, two literals of which are watched, these if they are two of it.
    pub fn learn(
        &mut self,
        clause: Items<Literal>,
        first: Option<Literal>,
        second: Option<Literal>,
    ) -> Result<(), AllocError>
        ensures { OnOk result (self.new ≡ self.old ++ clause ∷ []) }
    {
        let two = two_or_these(clause.slice(), first, second);
        put(
            &mut self.clauses,
            &mut self.watches,
            &mut self.short,
            clause,
            two,
        )
    }
}
