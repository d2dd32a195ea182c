//! Worked rows: what the definitions say of the line of `specs/Sample.antt`.

ghost use Rattle.std.specs.Prelude.{◌≡◌, List, [], ◌∷◌, codes};
ghost use Rattle.cfj_model.specs.Coloring.{no_colors};
ghost use Rattle.cfj_model.specs.ProductLines.{object};
ghost use Rattle.locality_law.specs.Sample.{class_a, field_f, keys_of_c, keys_of_m, method_n, sample, units_listed};
ghost use Rattle.unit_facts.specs.Facts.{absent, class_is, fact, head_is, method_is, own_of, signature_of, signatures_are};
ghost use Rattle.unit_facts.specs.Reach.{IsReach};
ghost use Rattle.unit_facts.specs.Units.{units_of};
ghost use Rattle.unit_facts.specs.declared.unit.Key.TheVariants as key;
ghost use Rattle.unit_facts.specs.declared.unit.Unit.TheVariants as unit;

/// A worked row: the units of the sample.
pub fn units_of_the_sample()
    ensures { units_of sample.classes ≡ units_listed }
{}

/// Worked rows: facts of the sample, and what is absent there.
pub fn facts_of_the_sample()
    ensures head { fact sample (key.Head (codes "A")) ≡ head_is (record { colors = no_colors; parent = object; fields = field_f ∷ [] }) }
    ensures no_head { fact sample (key.Head (codes "Missing")) ≡ absent }
    ensures signatures { fact sample (key.Sig (codes "C") (codes "n")) ≡ signatures_are (signature_of method_n ∷ []) }
    ensures no_signatures { fact sample (key.Sig (codes "A") (codes "n")) ≡ absent }
    ensures own_class { fact sample (key.Own (unit.Class (codes "A"))) ≡ class_is (own_of class_a) }
    ensures own_method { fact sample (key.Own (unit.Method (codes "C") (codes "n") 0)) ≡ method_is method_n }
    ensures no_method { fact sample (key.Own (unit.Method (codes "C") (codes "n") 1)) ≡ absent }
    ensures no_model { fact sample (key.Own unit.Model) ≡ absent }
{}

/// A worked row: what the method `m` of `A` reaches.
#[tactic(auto, using(crate::proofs::SampleReach::reach_of_m))]
pub fn reach_of_a_method()
    ensures { IsReach sample (unit.Method (codes "A") (codes "m") 0) keys_of_m }
{}

/// A worked row: what the class `C` reaches.
#[tactic(auto, using(crate::proofs::SampleReach::reach_of_c))]
pub fn reach_of_a_class()
    ensures { IsReach sample (unit.Class (codes "C")) keys_of_c }
{}
