//! The gates that a gate reaches.

ghost use Rattle.std.specs.Prelude.{◌≡◌, ◌<◌, ◌+◌, length, IfOk, replicate, false};
ghost use Rattle.cnf_form.specs.Reaching.{AreBelow, AreReached, with_operands};

use cond_circuit::{Circuit, Part};
use std::alloc::{AllocError, Global};

/// Marks the operands of a part.
fn mark_operands(marks: &mut Vec<bool>, part: Part)
    requires { AreBelow (length marks.old.items) part }
    ensures { marks.new.items ≡ with_operands part marks.old.items }
{
    match part {
        Part::Zero | Part::One | Part::Feat(_) => {}
        Part::Not(operand) => marks[operand as usize] = true,
        Part::And(left, right) | Part::Or(left, right) => {
            marks[left as usize] = true;
            marks[right as usize] = true;
        }
    }
}

/// So many gates without a mark.
fn no_marks(alloc: Global, size: usize) -> Result<Vec<bool>, AllocError>
    ensures { IfOk result (λ marks. marks.items ≡ replicate size false) }
{
    vec![in alloc; false; size]
}

/// For each gate up to this one, whether this one reaches it.
pub fn reached(alloc: Global, circuit: &Circuit, top: u64) -> Result<Vec<bool>, AllocError>
    requires { top < length circuit.now.parts }
    ensures { IfOk result (λ marks. AreReached circuit.now.parts top marks.items) }
{
    let _gates = circuit.gates();
    let mut marks = no_marks(alloc, top as usize + 1)?;
    marks[top as usize] = true;
    let mut above = top + 1;
    'gates: while above > 0 {
        above -= 1;
        if marks[above as usize] {
            mark_operands(&mut marks, circuit.part(above));
        }
    }
    Ok(marks)
}
