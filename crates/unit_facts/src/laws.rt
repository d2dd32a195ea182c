//! Laws over the definitions alone.

ghost use Rattle.std.specs.Prelude.{◌≡◌, ℕ, ◌^◌, ◌≤◌, ◌↔◌, true, List, length};
ghost use Rattle.cfj_model.specs.ProductLines.{ProductLine, in_format_two};
ghost use Rattle.unit_facts.specs.Diagnostics.{IsChecked, are_decided};
ghost use Rattle.unit_facts.specs.declared.entry.Entry.{Entry};
ghost use Rattle.unit_facts.specs.declared.entry.Verdict.{Verdict};

/// A law: with few features nothing is undecided. Of `n` features there are but 3^n - 1 clauses that aren't empty and hold none of
/// them twice.
pub fn decides_few_features()
    ensures { (line : ProductLine) (budget : ℕ) (v : Verdict) (es : List Entry) → IsChecked line budget v es
        → 3 ^ length line.model.features ≤ budget → are_decided v es ≡ true }
{}

/// A law: what is found of a product line doesn't depend on its format. In format Two it has the same verdict and the same entries.
pub fn format_changes_nothing()
    ensures { (line : ProductLine) (budget : ℕ) (v : Verdict) (es : List Entry) →
        IsChecked line budget v es ↔ IsChecked (in_format_two line) budget v es }
{}
