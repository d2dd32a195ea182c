//! How deep the frames nest, and how they are closed.

ghost use Rattle.std.specs.Prelude.{◌≡◌, ◌≤◌, ◌∷◌, true, IfOk, MatchOption, length, nat_le, reverse};
ghost use Rattle.formula_reader.specs.Machine as spec;
ghost use Rattle.formula_reader.specs.Views.{is_open};

use crate::frame::{Frame, IMPLIES_LEVEL};
use crate::stack::Stack;
use cfj_model::Formula;
use std::alloc::{AllocError, Global};

/// How many constructs are open within these frames, the outermost first.
pub fn depth_within(frames: &[Frame]) -> usize
    ensures depth { result ≡ spec.depth (reverse frames.now) }
    ensures within { result ≤ length frames.now }
{
    frames.iter().rev().filter(|frame| frame.nests()).count()
}

/// And behind the left side of an `->`.
pub fn depth_behind_left(frames: &[Frame]) -> usize
    ensures depth { result ≡ spec.depth (spec.still_open 3 (reverse frames.now)) }
    ensures within { result ≤ length frames.now }
{
    let mut open = frames;
    'left: while let Some((innermost, outer)) = open.split_last() {
        if !innermost.holds(IMPLIES_LEVEL + 1) {
            break;
        }
        open = outer;
    }
    depth_within(open)
}

/// Takes the innermost frame where it holds at least so tightly.
fn pop_held(frames: &mut Stack<Frame>, least: u8) -> Option<Frame>
    ensures { MatchOption result ((frames.new ≡ frames.old) × (is_open least frames.old ≡ true)) (λ frame. (frames.old ≡ frame ∷ frames.new) × (nat_le least (spec.level frame) ≡ true)) }
{
    match frames.items().last() {
        Some(frame) if frame.holds(least) => frames.pop(),
        _ => None,
    }
}

/// Closes the innermost frames that hold at least so tightly; the answer is the formula.
pub fn reduce(
    alloc: Global,
    frames: &mut Stack<Frame>,
    right: Formula,
    least: u8,
) -> Result<Formula, AllocError>
    ensures { IfOk result (λ whole. spec.reduce least frames.old right ≡ (frames.new, whole)) }
{
    let mut whole = right;
    'closing: while let Some(frame) = pop_held(frames, least) {
        whole = frame.applied(alloc, whole)?;
    }
    Ok(whole)
}
