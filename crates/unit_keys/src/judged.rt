//! Judgements of units that are right for every project which has their facts.

ghost use Rattle.std.specs.Prelude.{◌≡◌, IfOk, is_some};
ghost use Rattle.std.specs.Option.{option_copied};
ghost use Rattle.cfj_words.specs.Lists.{Has};
ghost use Rattle.unit_facts.specs.Facts.{model_is};
ghost use Rattle.unit_facts.specs.Judgements.{IsHonest, IsOf};
ghost use Rattle.unit_facts.specs.Units.{IsUnit};
ghost use Rattle.unit_facts.specs.declared.unit.Key.TheVariants as key;
ghost use Rattle.unit_keys.specs.Kept.{IsKept};

use crate::fact::Fact;
use cfj_model::{FeatureModel, Items, Project};
use std::alloc::{AllocError, Global};
use std::marker::Model;
use unit_facts::{Entry, Key, Unit, Verdict};

/// What is found of a unit within a budget, and the facts that this rests on.
///
/// Its type keeps that it is honest: for every project that has its facts, their keys are the unit's reach, in order, and its entries and
/// its verdict are exact for the unit. Also that it has a verdict exactly where its unit is the model's, and that one of its facts is
/// that of the feature model.
#[derive(Drop)]
pub struct Judged {
    unit: Unit,
    budget: u32,
    facts: Items<(Key, Fact)>,
    entries: Items<Entry>,
    verdict: Option<Verdict>,
}

impl Model for Judged {
    ghost use Rattle.std.specs.Coded.{codes};
    ghost use Rattle.cfj_logic.specs.contracts.formula.Formula as formula;
    ghost use Rattle.cfj_model.specs.contracts.expr.Expr as expr;
    ghost use Rattle.unit_facts.specs.Judgements.{Judgement};
    ghost use Rattle.unit_keys.specs.Kept.{IsKept};

    ghost Value = { Judgement };

    ghost coded = { Prim.hlevel (codes, expr.the_row.coded, formula.the_row.coded) };

    ghost view = { λ j. record { unit = j.unit; budget = j.budget; facts = j.facts; entries = j.entries; verdict = j.verdict } };

    ghost invariant = { λ j. IsKept (record { unit = j.unit; budget = j.budget; facts = j.facts; entries = j.entries; verdict = j.verdict }) };
}

impl Judged {
    /// The judgement of a unit by these entries and this verdict, which rest on these facts. No memory is taken.
    pub fn of(
        unit: Unit,
        budget: u32,
        facts: Vec<(Key, Fact)>,
        entries: Vec<Entry>,
        verdict: Option<Verdict>,
    ) -> Judged
        requires { IsKept (record { unit = unit; budget = budget; facts = facts.items; entries = entries.items; verdict = verdict }) }
        ensures { result ≡ record { unit = unit; budget = budget; facts = facts.items; entries = entries.items; verdict = verdict } }
    {
        Judged {
            unit,
            budget,
            facts: Items::of(facts),
            entries: Items::of(entries),
            verdict,
        }
    }

    /// What is judged.
    pub fn unit(&self) -> &Unit
        ensures unit { result.now ≡ self.now.unit }
        ensures kept { IsKept self.now }
    {
        &self.unit
    }

    /// How many clauses were allowed for each pair of a site and a rule.
    pub fn budget(&self) -> u32
        ensures budget { result ≡ self.now.budget }
        ensures kept { IsKept self.now }
    {
        self.budget
    }

    /// The facts that it rests on, with their keys.
    pub fn facts(&self) -> &[(Key, Fact)]
        ensures facts { result.now ≡ self.now.facts }
        ensures kept { IsKept self.now }
    {
        self.facts.slice()
    }

    /// What is found of the unit's pairs of a site and a rule, in their order.
    pub fn entries(&self) -> &[Entry]
        ensures entries { result.now ≡ self.now.entries }
        ensures kept { IsKept self.now }
    {
        self.entries.slice()
    }

    /// What is found of the feature model, where that is the unit.
    pub fn verdict(&self) -> Option<&Verdict>
        ensures verdict { option_copied result ≡ self.now.verdict }
        ensures kept { IsKept self.now }
    {
        self.verdict.as_ref()
    }
}

/// Who judges units.
///
/// A judge owes for a unit of a project a judgement of that unit within the budget whose facts are the project's. That it is honest is in
/// its type. It fails only where there is no memory.
pub trait Judge: Sync {
    /// A judgement of this unit of the project.
    fn judge(
        &self,
        alloc: Global,
        project: &Project,
        unit: &Unit,
        budget: u32,
    ) -> Result<Judged, AllocError>
        requires { IsUnit project.now unit.now }
        ensures { IfOk result (λ j. IsOf project.now unit.now budget j) };
}
