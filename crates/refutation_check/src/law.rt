//! The law of logs.

ghost use Rattle.std.specs.Prelude.{ℕ, List};
ghost use Rattle.cfj_logic.specs.declared.clauses.Literal.{Literal as SignedVariable};
ghost use Rattle.cfj_logic.specs.Logs.{Assignment, IsModel, IsTrueIn, Follows};

/// The law of logs: a clause that follows is true in every assignment that makes all the premises true.
pub fn consequence()
    ensures { (vars : ℕ) (premises : List (List SignedVariable)) (clause : List SignedVariable) (v : Assignment) → IsModel premises v → Follows vars premises clause → IsTrueIn v clause }
{}
