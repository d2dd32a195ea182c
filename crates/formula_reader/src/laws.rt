//! The laws of the reader.

ghost use Rattle.formula_reader.specs.Laws.{EachIsRead, OnlyFormulasAreRead, FormulasGoOn, NoneGoesOnElsewhere, AnyNameWillDo, ConstraintsAreKept, NodesAreCounted};

/// The law of the reader: it reads exactly the formulas, and stops at the first token with which none begins.
pub fn reads_formulas()
    ensures each { EachIsRead }
    ensures only { OnlyFormulasAreRead }
    ensures begun { FormulasGoOn }
    ensures stuck { NoneGoesOnElsewhere }
    ensures names { AnyNameWillDo }
{}

/// The law of limits: what is read within them keeps what a project keeps of a constraint.
pub fn keeps_constraints()
    ensures kept { ConstraintsAreKept }
    ensures nodes { NodesAreCounted }
{}
