//! What each token does.

ghost use Rattle.std.specs.Prelude.{◌≡◌, ◌≤◌, ◌∷◌, None, IfOk, length};
ghost use Rattle.std.specs.Bool.{OnTrue, OnFalse};
ghost use Rattle.fj_symbols.specs.Views.{symbol_seen};
ghost use Rattle.cfj_model.specs.FormulaGrammar as grammar;
ghost use Rattle.cfj_words.specs.Tokens.{CloseParen, Semicolon};
ghost use Rattle.cfj_logic.specs.declared.formula.Formula.{Formula};
ghost use Rattle.formula_reader.specs.Machine as spec;
ghost use Rattle.formula_reader.specs.declared.frame.Frame.TheVariants as frame;
ghost use Rattle.formula_reader.specs.Views.{reached};

use crate::frame::{AND_LEVEL, Frame, IFF_LEVEL, IMPLIES_LEVEL, OR_LEVEL};
use crate::frames::reduce;
use crate::mode::Mode;
use crate::stack::Stack;
use cfj_model::Formula;
use fj_symbols::{Features, Symbol};
use std::alloc::{AllocError, Global};
use std::mem;

/// The feature of this name, or a formula in its place.
fn feature_named(features: &Features<'_>, name: &str) -> Formula
    requires { length features.now ≤ 128 }
    ensures { result ≡ grammar.feature_named features.now name.now }
{
    match features.place(name) {
        Some(place) => Formula::Feat(place as u8),
        None => Formula::False,
    }
}

/// The mode behind the next token.
pub fn next(
    alloc: Global,
    frames: &mut Stack<Frame>,
    mode: Mode,
    features: &Features<'_>,
    symbol: Symbol<'_>,
) -> Result<Option<Mode>, AllocError>
    requires { length features.now ≤ 128 }
    ensures { IfOk result (λ next. reached frames.new next ≡ spec.step_in features.now frames.old mode (symbol_seen symbol.entry)) }
{
    match mode {
        Mode::Want => want(frames, features, symbol),
        Mode::After(operand) => after(alloc, frames, operand, symbol),
        Mode::Done(_) => Ok(None),
    }
}

/// The mode behind a token where an operand has to begin.
fn want(
    frames: &mut Stack<Frame>,
    features: &Features<'_>,
    symbol: Symbol<'_>,
) -> Result<Option<Mode>, AllocError>
    requires { length features.now ≤ 128 }
    ensures { IfOk result (λ mode. reached frames.new mode ≡ spec.want features.now frames.old (symbol_seen symbol.entry)) }
{
    match symbol {
        Symbol::Id(name) => Ok(Some(Mode::After(feature_named(features, name)))),
        Symbol::True => Ok(Some(Mode::After(Formula::True))),
        Symbol::False => Ok(Some(Mode::After(Formula::False))),
        Symbol::Bang => {
            frames.push(Frame::InNot)?;
            Ok(Some(Mode::Want))
        }
        Symbol::OpenParen => {
            frames.push(Frame::InBracket)?;
            Ok(Some(Mode::Want))
        }
        _ => Ok(None),
    }
}

/// The mode behind a token that stands behind an operand.
fn after(
    alloc: Global,
    frames: &mut Stack<Frame>,
    operand: Formula,
    symbol: Symbol<'_>,
) -> Result<Option<Mode>, AllocError>
    ensures { IfOk result (λ mode. reached frames.new mode ≡ spec.after frames.old operand (symbol_seen symbol.entry)) }
{
    match symbol {
        Symbol::Ampersand => {
            let left = reduce(alloc, frames, operand, AND_LEVEL)?;
            frames.push(Frame::InAnd(left))?;
            Ok(Some(Mode::Want))
        }
        Symbol::Bar => {
            let left = reduce(alloc, frames, operand, OR_LEVEL)?;
            frames.push(Frame::InOr(left))?;
            Ok(Some(Mode::Want))
        }
        Symbol::Arrow => {
            // It binds to the right: another `->` stays open.
            let left = reduce(alloc, frames, operand, IMPLIES_LEVEL + 1)?;
            frames.push(Frame::InImplies(left))?;
            Ok(Some(Mode::Want))
        }
        Symbol::DoubleArrow => {
            let left = reduce(alloc, frames, operand, IFF_LEVEL)?;
            frames.push(Frame::InIff(left))?;
            Ok(Some(Mode::Want))
        }
        Symbol::CloseParen => close(alloc, frames, operand),
        Symbol::Semicolon => end(alloc, frames, operand),
        _ => {
            // By a call, which the check counts as one step; left to the end of the arm, it drops part by part.
            mem::drop(operand);
            Ok(None)
        }
    }
}

/// The mode behind a bracket that closes.
fn close(
    alloc: Global,
    frames: &mut Stack<Frame>,
    operand: Formula,
) -> Result<Option<Mode>, AllocError>
    ensures { IfOk result (λ mode. reached frames.new mode ≡ spec.after frames.old operand CloseParen) }
{
    let whole = reduce(alloc, frames, operand, IFF_LEVEL)?;
    if pop_bracket(frames) {
        return Ok(Some(Mode::After(whole)));
    }
    // By a call, which the check counts as one step.
    mem::drop(whole);
    Ok(None)
}

/// Takes the bracket on top, where one is.
fn pop_bracket(frames: &mut Stack<Frame>) -> bool
    ensures open { OnTrue result (frames.old ≡ frame.InBracket ∷ frames.new) }
    ensures other { OnFalse result ((y : Formula) → spec.closed frames.old y ≡ None) }
{
    match frames.items().last() {
        Some(Frame::InBracket) => {
            mem::drop(frames.pop());
            true
        }
        _ => false,
    }
}

/// The mode behind a semicolon.
fn end(
    alloc: Global,
    frames: &mut Stack<Frame>,
    operand: Formula,
) -> Result<Option<Mode>, AllocError>
    ensures { IfOk result (λ mode. reached frames.new mode ≡ spec.after frames.old operand Semicolon) }
{
    let whole = reduce(alloc, frames, operand, IFF_LEVEL)?;
    match frames.pop() {
        None => Ok(Some(Mode::Done(whole))),
        Some(frame) => {
            // By a call, which the check counts as one step.
            mem::drop(frame);
            Ok(None)
        }
    }
}
