//! Facts: what a key holds in a project, looked at where it stands, or kept.

ghost use Rattle.std.specs.Prelude.{◌≡◌, ◌↔◌, IfOk, IsTrue};
ghost use Rattle.unit_keys.specs.Parts.{kept_contents, lent_contents, seen_contents};

use crate::part::Part;
use crate::seen::{Seen, is_same};
use cfj_model::{Class, FeatureModel, Shared};
use std::alloc::{AllocError, Global};
use std::marker::Model;

/// The part of a project that a fact stands for, where it stands in the project or in a fact that is kept.
type Lent<'a> = Part<&'a Shared<Class>, &'a FeatureModel>;

/// The same, in memory that it shares with the project.
type Kept = Part<Shared<Class>, Shared<FeatureModel>>;

/// A fact of a project, looked at where it stands. No memory is taken for it.
///
/// Contracts see it, as they see a `Fact`, as what it holds: nothing, where it is absent, or the contents that its key has.
#[derive(Drop)]
pub struct FactRef<'a> {
    lent: Lent<'a>,
}

impl<'a> Model for FactRef<'a> {
    ghost use Rattle.std.specs.Coded.{codes};
    ghost use Rattle.cfj_logic.specs.contracts.formula.Formula as formula;
    ghost use Rattle.cfj_model.specs.contracts.expr.Expr as expr;
    ghost use Rattle.unit_facts.specs.Facts.{Contents};
    ghost use Rattle.unit_keys.specs.Parts.{lent_contents};

    ghost Value = { Contents };

    ghost coded = { Prim.hlevel (codes, expr.the_row.coded, formula.the_row.coded) };

    ghost view = { λ f. lent_contents f.lent };
}

/// A fact that is kept, also when the project is gone. It shares the project's classes.
#[derive(Drop)]
pub struct Fact {
    kept: Kept,
}

impl Model for Fact {
    ghost use Rattle.std.specs.Coded.{codes};
    ghost use Rattle.cfj_logic.specs.contracts.formula.Formula as formula;
    ghost use Rattle.cfj_model.specs.contracts.expr.Expr as expr;
    ghost use Rattle.unit_facts.specs.Facts.{Contents};
    ghost use Rattle.unit_keys.specs.Parts.{kept_contents};

    ghost Value = { Contents };

    ghost coded = { Prim.hlevel (codes, expr.the_row.coded, formula.the_row.coded) };

    ghost view = { λ f. kept_contents f.kept };
}

// What a part holds.
fn look<'a>(part: &Lent<'a>) -> Seen<'a>
    ensures { seen_contents result ≡ lent_contents part.now }
{
    match part {
        Part::Absent => Seen::Absent,
        Part::Model(model) => Seen::Model(model),
        Part::Head(class) => Seen::Head(class.get()),
        Part::Own(class) => Seen::Own(class.get()),
        Part::Signatures(class, place) => match class.get().methods.slice().get(*place) {
            Some(method) => Seen::Signatures(class.get(), method),
            None => Seen::Absent,
        },
        Part::Method(class, place) => match class.get().methods.slice().get(*place) {
            Some(method) => Seen::Method(method),
            None => Seen::Absent,
        },
    }
}

impl<'a> FactRef<'a> {
    // The fact that this part is.
    pub(crate) fn of(lent: Lent<'a>) -> FactRef<'a>
        ensures { result ≡ lent_contents lent.entry }
    {
        FactRef { lent }
    }

    /// The same fact, kept. It shares the project's classes, and the feature model is copied.
    ///
    /// # Errors
    ///
    /// There is no memory for it.
    pub fn keep(&self, alloc: Global) -> Result<Fact, AllocError>
        ensures { IfOk result (λ fact. fact ≡ self.now) }
    {
        let kept = match &self.lent {
            Part::Absent => Part::Absent,
            Part::Model(model) => Part::Model(Shared::new(alloc, model.copy(alloc)?)?),
            Part::Head(class) => Part::Head(class.share()?),
            Part::Own(class) => Part::Own(class.share()?),
            Part::Signatures(class, place) => Part::Signatures(class.share()?, *place),
            Part::Method(class, place) => Part::Method(class.share()?, *place),
        };
        Ok(Fact { kept })
    }
}

impl Fact {
    /// The fact, looked at where it is kept.
    pub fn lent(&self) -> FactRef<'_>
        ensures { result ≡ self.now }
    {
        let lent = match &self.kept {
            Part::Absent => Part::Absent,
            Part::Model(model) => Part::Model(model.get()),
            Part::Head(class) => Part::Head(class),
            Part::Own(class) => Part::Own(class),
            Part::Signatures(class, place) => Part::Signatures(class, *place),
            Part::Method(class, place) => Part::Method(class, *place),
        };
        FactRef { lent }
    }

    /// Whether a fact of a project holds the same: the contents are compared, wherever they stand.
    pub fn same(&self, other: FactRef<'_>) -> bool
        ensures { IsTrue result ↔ (self.now ≡ other.entry) }
    {
        is_same(look(&self.lent().lent), look(&other.lent))
    }
}
