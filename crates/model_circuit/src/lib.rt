//! The gate of a feature model: the condition that a selection is valid.
//!
//! Rests on `cond_circuit`, whose `specs/Gates.antt` says what a gate is worth under a selection, and on `cfj_logic`, whose
//! `specs/Validity.antt` says when a selection is valid. Whoever asks something of all valid selections joins this gate with the
//! gate of the question. It is made once for a circuit, which gives it again where it is asked for again.
#![tactic(auto)]

mod gate;

pub use gate::model_gate;
