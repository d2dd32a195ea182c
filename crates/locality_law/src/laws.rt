//! Laws over the definitions alone.

ghost use Rattle.std.specs.Prelude.{◌≡◌, ◌↔◌, ℕ, true, List, ◌++◌, flat_map, map, Option};
ghost use Rattle.cfj_logic.specs.Selections.{Chosen};
ghost use Rattle.cfj_model.specs.Judging.{Pair, RuleAt, pair_of, pairs_of};
ghost use Rattle.cfj_model.specs.ProductLines.{IsProject, ProductLine};
ghost use Rattle.cfj_model.specs.Projection.{projected};
ghost use Rattle.cfj_words.specs.Lists.{Has};
ghost use Rattle.locality_law.specs.Apart.{AreApart};
ghost use Rattle.locality_law.specs.Seen.{broken, seen_unit};
ghost use Rattle.unit_facts.specs.Diagnostics.{AreExact, BreaksIn, IsChecked};
ghost use Rattle.unit_facts.specs.Facts.{HasFacts};
ghost use Rattle.unit_facts.specs.Judgements.{AreExactByUnits, IsExactFor, IsHonest, IsLocal, IsRightFor, IsSameFor, Judgement};
ghost use Rattle.unit_facts.specs.Units.{IsUnit, unit_judged, unit_pairs, units_of};
ghost use Rattle.unit_facts.specs.declared.entry.Entry.{Entry};
ghost use Rattle.unit_facts.specs.declared.entry.Verdict.{Verdict};
ghost use Rattle.unit_facts.specs.declared.unit.Unit.{Unit};

/// A law: the pairs of a project are those of its units, in the order of the units.
#[tactic(auto, using(crate::proofs::ByUnit::pairs_by_unit))]
pub fn pairs_by_unit()
    ensures { (line : ProductLine) → IsProject line → pairs_of line.classes ≡ flat_map (unit_pairs line.classes) (units_of line.classes) }
{}

/// A law: entries that are exact for some pairs, and behind them entries that are exact for others, are exact for all of them.
#[tactic(auto, using(crate::proofs::Together::exact_both))]
pub fn exact_both()
    ensures { (line : ProductLine) (budget : ℕ) (ps qs : List Pair) (es fs : List Entry) → AreExact line budget ps es
        → AreExact line budget qs fs → AreExact line budget (ps ++ qs) (es ++ fs) }
{}

/// A law: a product line is checked exactly where its entries are lists joined in the order of its units, each exact for its unit.
#[tactic(auto, using(crate::proofs::Together::checked_by_units))]
pub fn checked_by_units()
    ensures { (line : ProductLine) → IsProject line → (budget : ℕ) (v : Verdict) (es : List Entry) →
        IsChecked line budget v es ↔ AreExactByUnits line budget v (units_of line.classes) es }
{}

/// A law: no pair stands in a project twice.
#[tactic(auto, using(crate::proofs::ApartPairs::pairs_apart))]
pub fn pairs_apart()
    ensures { (line : ProductLine) → IsProject line → AreApart (pairs_of line.classes) }
{}

/// A law: a pair of a unit breaks in a variant exactly where it is judged to break in the variant's unit.
pub fn breaks_in_unit()
    ensures { (line : ProductLine) → IsProject line → (u : Unit) (p : Pair) → Has (unit_pairs line.classes u) p → (s : Chosen)
        → BreaksIn line p s ↔ Has (unit_judged (projected s line).classes u) (record { site = p.0; rule = p.1; breaks = true }) }
{}

/// The locality law: two projects with the same facts at what a unit reaches in one of them give the unit the same reach and the same
/// pairs, and in the variants of every selection the same of these pairs break.
pub fn local()
    ensures { IsLocal }
{}

/// A law: what is exact for a unit of one project is exact for it in each project where the unit is the same.
#[tactic(auto, using(crate::proofs::Exact::exact_there))]
pub fn exact_there()
    ensures { (q r : ProductLine) → IsProject q → IsProject r → (u : Unit) → IsSameFor q r u → (budget : ℕ) (es : List Entry)
        (v : Option Verdict) → IsExactFor q budget u es v → IsExactFor r budget u es v }
{}

/// A law: a judgement that is right for one project which has its facts is honest.
pub fn honest_here()
    ensures { (q : ProductLine) (j : Judgement) → IsProject q → IsUnit q j.unit → HasFacts q j.facts → IsRightFor j q → IsHonest j }
{}

/// A law: the aligned reading of a unit has the pairs of the unit, in their order, whatever is selected.
#[tactic(auto, using(crate::proofs::SeenPairs::seen_pairs))]
pub fn seen_pairs()
    ensures { (s : Chosen) (line : ProductLine) (u : Unit) → map pair_of (seen_unit s line u) ≡ unit_pairs line.classes u }
{}

/// A law: what breaks in the aligned reading of a unit of a project is what breaks of the unit in the variant.
#[tactic(auto, using(crate::proofs::SeenBroken::seen_broken))]
pub fn seen_broken()
    ensures { (s : Chosen) (line : ProductLine) → IsProject line → (u : Unit)
        → broken (seen_unit s line u) ≡ broken (unit_judged (projected s line).classes u) }
{}

/// A law: at each place of the aligned reading of a unit of a project, the pair breaks in the variant exactly where the reading says so.
pub fn seen_tells()
    ensures { (s : Chosen) (line : ProductLine) → IsProject line → (u : Unit) → IsUnit line u → (r : RuleAt) → Has (seen_unit s line u) r
        → (r.breaks ≡ true) ↔ BreaksIn line (pair_of r) s }
{}
