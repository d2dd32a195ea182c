//! The law that a check of a product line without entries clears all its variants.
//!
//! It needs no code but to ask what a project's type keeps, and rests on three things: `unit_facts`, whose
//! `specs/Diagnostics.antt` says that a pair of a site and a rule without an entry breaks under no valid selection, and where the
//! pairs of a project are listed node by node, so that those of a variant are among those of the line;
//! `feature_views`, whose variants keep what a project keeps; and `plain_fj`, whose law is that a project is well typed exactly
//! where no rule breaks in it. Typing and projection are those of `cfj_model`.
//!
//! `proofs/VariantPairs.antt` shows that each pair of a site and a rule of a variant is one of its product line, part by part along
//! projection; so where a line has no entry, nothing breaks in any valid variant, and `plain_fj`'s law makes that well typed.
#![tactic(auto)]

ghost use Rattle.std.specs.Prelude.{ℕ, []};
ghost use Rattle.cfj_model.specs.Projection.{projected};
ghost use Rattle.cfj_logic.specs.Selections.{Chosen};
ghost use Rattle.cfj_model.specs.Typing.{IsWellTyped};
ghost use Rattle.unit_facts.specs.Diagnostics.{IsChecked, IsValidFor};
ghost use Rattle.unit_facts.specs.declared.entry.Verdict.{Verdict};

use cfj_model::Project;

/// A law: where a checked product line has no entry, the variant of every valid selection is well typed.
pub fn clean_variants(project: &Project)
    ensures { (budget : ℕ) (v : Verdict) → IsChecked project.now budget v []
        → (s : Chosen) → IsValidFor project.now s → IsWellTyped (projected s project.now).classes }
{
    let _kept = project.model();
}
