//! By literal, the clauses in which it is watched.

ghost use Rattle.std.specs.Prelude.{◌≡◌, ◌↔◌, ◌<◌, ◌≤◌, ◌⊎◌, ℕ, length, IsTrue, OnOk};
ghost use Rattle.cfj_words.specs.Lists.{Has};
ghost use Rattle.unit_propagation.specs.Lists.{IsIn, IsListed, IsCovered, AreMore, Exchanges};

use cfj_logic::Literal;
use std::alloc::{AllocError, Global};
use std::mem;

/// By literal, the places of the clauses in which it is watched.
#[derive(Debug, Drop)]
pub(crate) struct Lists {
    /// By variable, the clauses in which it is watched with the value `true`.
    on: Vec<Vec<usize>>,
    /// By variable, the clauses in which it is watched with the value `false`.
    off: Vec<Vec<usize>>,
    /// Whence the memory of further lists comes.
    alloc: Global,
}

/// Puts empty lists at the end until the variable has one.
fn lengthen(alloc: Global, lists: &mut Vec<Vec<usize>>, var: usize) -> Result<(), AllocError>
    ensures kept { (x k : ℕ) → IsIn lists.old.items x k → IsIn lists.new.items x k }
    ensures longer { length lists.old.items ≤ length lists.new.items }
    ensures long { OnOk result (var < length lists.new.items) }
{
    'lists: while lists.len() <= var {
        lists.push(Vec::new(alloc))?;
    }
    Ok(())
}

/// Puts a place into the list of a variable.
fn enlist(
    alloc: Global,
    lists: &mut Vec<Vec<usize>>,
    var: usize,
    place: usize,
) -> Result<(), AllocError>
    ensures kept { (x k : ℕ) → IsIn lists.old.items x k → IsIn lists.new.items x k }
    ensures longer { length lists.old.items ≤ length lists.new.items }
    ensures there { OnOk result (IsIn lists.new.items var place) }
{
    lengthen(alloc, lists, var)?;
    lists[var].push(place)?;
    Ok(())
}

/// Puts a list in the place of that of a variable, which is returned.
fn exchange(lists: &mut Vec<Vec<usize>>, var: usize, list: Vec<usize>) -> Vec<usize>
    requires { var < length lists.old.items }
    ensures { Exchanges lists.old.items lists.new.items var list.items result.items }
{
    mem::replace(&mut lists[var], list)
}

impl Lists {
    /// No literal has a list.
    pub(crate) fn new(alloc: Global) -> Lists {
        Lists {
            on: Vec::new(alloc),
            off: Vec::new(alloc),
            alloc,
        }
    }

    /// Whether the literal has a list.
    pub(crate) fn covers(&self, literal: Literal) -> bool
        ensures { IsTrue result ↔ IsCovered self.now literal }
    {
        let var = literal.var as usize;
        if literal.on {
            var < self.on.len()
        } else {
            var < self.off.len()
        }
    }

    /// Puts a clause into the list of a literal.
    pub(crate) fn enlist(&mut self, literal: Literal, place: usize) -> Result<(), AllocError>
        ensures more { AreMore self.old self.new }
        ensures there { OnOk result (IsListed self.new literal place) }
    {
        let var = literal.var as usize;
        if literal.on {
            enlist(self.alloc, &mut self.on, var, place)
        } else {
            enlist(self.alloc, &mut self.off, var, place)
        }
    }

    /// Puts a list in the place of that of a literal, which is returned.
    pub(crate) fn exchange(&mut self, literal: Literal, list: Vec<usize>) -> Vec<usize>
        requires { IsCovered self.old literal }
        ensures taken { (m : Literal) (k : ℕ) → IsListed self.old m k
            → ((m ≡ literal → ⊥) × IsListed self.new m k) ⊎ ((m ≡ literal) × Has result.items k) }
        ensures put { (k : ℕ) → Has list.items k → IsListed self.new literal k }
        ensures covered { (m : Literal) → IsCovered self.old m → IsCovered self.new m }
    {
        let var = literal.var as usize;
        if literal.on {
            exchange(&mut self.on, var, list)
        } else {
            exchange(&mut self.off, var, list)
        }
    }
}
