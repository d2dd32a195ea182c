//! The watched literals of clauses, and what follows from a literal that is made false.

ghost use Rattle.std.specs.Prelude.{◌≡◌, ◌⊎◌, List, [], ◌∷◌, ◌++◌, length, All, IfOk, OnErr, IfSome, IfNone, OnOk};
ghost use Rattle.cfj_logic.specs.declared.clauses.Literal.{Literal};
ghost use Rattle.cfj_logic.specs.UnitClauses.{Values, IsFalse};
ghost use Rattle.cfj_logic.specs.Logs.{AreBelow};
ghost use Rattle.unit_propagation.specs.Falsified.{IsFalsifiedAt};
ghost use Rattle.unit_propagation.specs.Lists.{AreMore};
ghost use Rattle.unit_propagation.specs.Trails.{Grows};
ghost use Rattle.unit_propagation.specs.Visits.{Settles, Visits};
ghost use Rattle.unit_propagation.specs.Watched.{IsShort, AreTwoOf, AreWatched, AreWatchedBut, Handled, HandledWith};
ghost use Rattle.unit_propagation.specs.Walks.{IsWithin};

use crate::lists::Lists;
use crate::pair::{Pair, find_watch, other_of};
use crate::trail::Step;
use crate::units::{Standing, make_true, standing_of};
use crate::values::is_true;
use cfj_logic::Literal;
use cfj_words::Items;
use std::alloc::{AllocError, Global};

/// What a look at a clause came to, one of whose watched literals had become false.
#[derive(Clone, Copy, Debug, PartialEq, Eq)]
pub(crate) enum Visit {
    /// The literal is watched on.
    Stays,
    /// Another literal is watched in its place.
    Moves,
    /// All literals of the clause are false.
    Falsified,
}

/// Which literals of clauses are watched, by the places of the clauses.
#[derive(Debug, Drop)]
pub(crate) struct Watches {
    /// The watched literals of each clause.
    pairs: Vec<Pair>,
    /// The clauses in which each literal is watched.
    lists: Lists,
}

/// Makes the literal of the clause true if it is a unit clause, and tells whether it is falsified.
pub(crate) fn settle(
    clauses: &[Items<Literal>],
    values: &mut [Option<bool>],
    trail: &mut Vec<Step>,
    place: usize,
) -> Result<bool, AllocError>
    requires below { All (AreBelow (length values.old)) clauses.now }
    ensures grown { OnOk result (Grows clauses.now values.old trail.old.items values.new trail.new.items) }
    ensures says { IfOk result (Settles clauses.now values.old values.new place) }
{
    if place >= clauses.len() {
        return Ok(false);
    }
    match standing_of(values, clauses[place].slice()) {
        Standing::Open => Ok(false),
        Standing::Falsified => Ok(true),
        Standing::Unit(literal) => {
            make_true(values, literal);
            trail.push(Step {
                literal,
                cause: Some(place),
            })?;
            Ok(false)
        }
    }
}

/// Watches another literal of the clause in place of one that has become false, or makes its last one true.
fn visit_one(
    clauses: &[Items<Literal>],
    pairs: &mut Vec<Pair>,
    lists: &mut Lists,
    values: &mut [Option<bool>],
    trail: &mut Vec<Step>,
    place: usize,
    falsified: Literal,
) -> Result<Visit, AllocError>
    requires below { All (AreBelow (length values.old)) clauses.now }
    ensures grown { OnOk result (Grows clauses.now values.old trail.old.items values.new trail.new.items) }
    ensures more { AreMore lists.old lists.new }
    ensures failed { OnErr result (pairs.new.items ≡ pairs.old.items) }
    ensures says { IfOk result
        (Visits clauses.now values.old values.new pairs.old.items pairs.new.items lists.new falsified place) }
{
    if place >= pairs.len() || place >= clauses.len() {
        return Ok(Visit::Stays);
    }
    let other = other_of(pairs[place], falsified);
    if is_true(values, other) {
        return Ok(Visit::Stays);
    }
    match find_watch(values, clauses[place].slice(), other) {
        Some(next) => {
            lists.enlist(next, place)?;
            pairs[place] = Pair {
                first: other,
                second: next,
            };
            Ok(Visit::Moves)
        }
        None => {
            if settle(clauses, values, trail, place)? {
                Ok(Visit::Falsified)
            } else {
                Ok(Visit::Stays)
            }
        }
    }
}

/// Visits the clauses of the list of a literal that has become false, up to a falsified one.
fn visit_each(
    clauses: &[Items<Literal>],
    watches: &mut Watches,
    values: &mut [Option<bool>],
    trail: &mut Vec<Step>,
    list: &mut Vec<usize>,
    falsified: Literal,
) -> Result<Option<usize>, AllocError>
    requires below { All (AreBelow (length values.old)) clauses.now }
    requires watched { AreWatchedBut falsified list.old.items clauses.now watches.old }
    requires made { IsFalse values.old falsified }
    ensures grown { OnOk result (Grows clauses.now values.old trail.old.items values.new trail.new.items) }
    ensures more { AreMore watches.old.lists watches.new.lists }
    ensures watched { AreWatchedBut falsified list.new.items clauses.now watches.new }
    ensures falsified { IfOk result (λ found. IfSome found (IsFalsifiedAt clauses.now values.new)) }
    ensures handled { IfOk result (λ found. IfNone found ((ds : Values) → IsWithin ds values.old
        → Handled clauses.now watches.old.pairs.items ds values.old
        → HandledWith clauses.now watches.new.pairs.items ds falsified values.new)) }
{
    let mut at = list.len();
    'visits: while at > 0 {
        at -= 1;
        let place = list[at];
        match visit_one(
            clauses,
            &mut watches.pairs,
            &mut watches.lists,
            values,
            trail,
            place,
            falsified,
        )? {
            Visit::Stays => {}
            Visit::Moves => {
                let _moved = list.swap_remove(at);
            }
            Visit::Falsified => return Ok(Some(place)),
        }
    }
    Ok(None)
}

impl Watches {
    /// No clause.
    pub(crate) fn new(alloc: Global) -> Watches
        ensures { result.pairs.items ≡ [] }
    {
        Watches {
            pairs: Vec::new(alloc),
            lists: Lists::new(alloc),
        }
    }

    /// Puts in the clause that comes behind these, two literals of which are watched, or which is short.
    pub(crate) fn add(&mut self, clauses: &[Items<Literal>], pair: Pair) -> Result<(), AllocError>
        requires { AreWatched clauses.now self.old }
        ensures same { AreWatched clauses.now self.new }
        ensures added { OnOk result ((c : List Literal)
            → AreTwoOf c pair ⊎ IsShort c → AreWatched (clauses.now ++ c ∷ []) self.new) }
    {
        let place = clauses.len();
        self.lists.enlist(pair.first, place)?;
        self.lists.enlist(pair.second, place)?;
        self.pairs.truncate(place);
        self.pairs.push(pair)?;
        Ok(())
    }

    /// Visits the clauses in which a literal is watched that has become false, up to a falsified one.
    pub(crate) fn visit_all(
        &mut self,
        alloc: Global,
        clauses: &[Items<Literal>],
        values: &mut [Option<bool>],
        trail: &mut Vec<Step>,
        falsified: Literal,
    ) -> Result<Option<usize>, AllocError>
        requires below { All (AreBelow (length values.old)) clauses.now }
        requires watched { AreWatched clauses.now self.old }
        requires made { IsFalse values.old falsified }
        ensures grown { OnOk result (Grows clauses.now values.old trail.old.items values.new trail.new.items) }
        ensures watched { AreWatched clauses.now self.new }
        ensures falsified { IfOk result (λ found. IfSome found (IsFalsifiedAt clauses.now values.new)) }
        ensures handled { IfOk result (λ found. IfNone found ((ds : Values) → IsWithin ds values.old
            → Handled clauses.now self.old.pairs.items ds values.old
            → HandledWith clauses.now self.new.pairs.items ds falsified values.new)) }
    {
        if !self.lists.covers(falsified) {
            return Ok(None);
        }
        let mut list = self.lists.exchange(falsified, Vec::new(alloc));
        let found = visit_each(clauses, self, values, trail, &mut list, falsified);
        let _none = self.lists.exchange(falsified, list);
        found
    }
}
