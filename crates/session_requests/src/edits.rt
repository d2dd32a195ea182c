//! The fields of edits.

ghost use Rattle.std.specs.Prelude.{◌≡◌, IfOk, IfErr};
ghost use Rattle.serde_json.specs.View.{view};
ghost use Rattle.session_requests.specs.Ops.{edit_fields};
ghost use Rattle.session_requests.specs.Refusals.{IsWrongAmong};
ghost use Rattle.session_requests.specs.Requests.{IsEditOf};
ghost use Rattle.session_requests.specs.declared.op.EditOp.TheVariants as edit_op;

use crate::field::Field;
use crate::members::{text_at, value_at, values_at};
use crate::op::EditOp;
use crate::unread::Unread;
use cfj_model::{Edit, MemberName, Name, Site};
use serde_json::Value;
use std::alloc::Global;
use std::mem;

/// The edit with this op, by the object's fields.
pub(crate) fn edit_of(alloc: Global, op: EditOp, object: &Value) -> Result<Edit, Unread>
    ensures ok { IfOk result (IsEditOf (view object.now) op) }
    ensures err { IfErr result (IsWrongAmong (edit_fields op) (view object.now)) }
{
    match op {
        EditOp::AddClass => add_class(alloc, object),
        EditOp::RemoveClass => remove_class(alloc, object),
        EditOp::AddMember => add_member(alloc, object),
        EditOp::ReplaceMember => replace_member(alloc, object),
        EditOp::RemoveMember => remove_member(alloc, object),
        EditOp::SetSuper => set_super(alloc, object),
        EditOp::SetConstructor => set_constructor(alloc, object),
        EditOp::SetColors => set_colors(alloc, object),
        EditOp::SetModel => set_model(alloc, object),
    }
}

#[tactic(auto, using(crate::proofs::FirstWrong::first_wrong, crate::proofs::FirstWrong::later_wrong))]
fn add_class(alloc: Global, object: &Value) -> Result<Edit, Unread>
    ensures ok { IfOk result (IsEditOf (view object.now) edit_op.AddClass) }
    ensures err { IfErr result (IsWrongAmong (edit_fields edit_op.AddClass) (view object.now)) }
{
    let text = text_at(alloc, object, Field::Text)?;
    Ok(Edit::AddClass { text })
}

#[tactic(auto, using(crate::proofs::FirstWrong::first_wrong, crate::proofs::FirstWrong::later_wrong))]
fn remove_class(alloc: Global, object: &Value) -> Result<Edit, Unread>
    ensures ok { IfOk result (IsEditOf (view object.now) edit_op.RemoveClass) }
    ensures err { IfErr result (IsWrongAmong (edit_fields edit_op.RemoveClass) (view object.now)) }
{
    let class = value_at::<Name>(alloc, object, Field::Class)?;
    Ok(Edit::RemoveClass { class })
}

#[tactic(auto, using(crate::proofs::FirstWrong::first_wrong, crate::proofs::FirstWrong::later_wrong))]
fn add_member(alloc: Global, object: &Value) -> Result<Edit, Unread>
    ensures ok { IfOk result (IsEditOf (view object.now) edit_op.AddMember) }
    ensures err { IfErr result (IsWrongAmong (edit_fields edit_op.AddMember) (view object.now)) }
{
    let class = value_at::<Name>(alloc, object, Field::Class)?;
    let text = text_at(alloc, object, Field::Text)?;
    Ok(Edit::AddMember { class, text })
}

#[tactic(auto, using(crate::proofs::FirstWrong::first_wrong, crate::proofs::FirstWrong::later_wrong))]
fn replace_member(alloc: Global, object: &Value) -> Result<Edit, Unread>
    ensures ok { IfOk result (IsEditOf (view object.now) edit_op.ReplaceMember) }
    ensures err { IfErr result (IsWrongAmong (edit_fields edit_op.ReplaceMember) (view object.now)) }
{
    let member = value_at::<MemberName>(alloc, object, Field::Member)?;
    let text = text_at(alloc, object, Field::Text)?;
    Ok(Edit::ReplaceMember { member, text })
}

#[tactic(auto, using(crate::proofs::FirstWrong::first_wrong, crate::proofs::FirstWrong::later_wrong))]
fn remove_member(alloc: Global, object: &Value) -> Result<Edit, Unread>
    ensures ok { IfOk result (IsEditOf (view object.now) edit_op.RemoveMember) }
    ensures err { IfErr result (IsWrongAmong (edit_fields edit_op.RemoveMember) (view object.now)) }
{
    let member = value_at::<MemberName>(alloc, object, Field::Member)?;
    Ok(Edit::RemoveMember { member })
}

#[tactic(auto, using(crate::proofs::FirstWrong::first_wrong, crate::proofs::FirstWrong::later_wrong))]
fn set_super(alloc: Global, object: &Value) -> Result<Edit, Unread>
    ensures ok { IfOk result (IsEditOf (view object.now) edit_op.SetSuper) }
    ensures err { IfErr result (IsWrongAmong (edit_fields edit_op.SetSuper) (view object.now)) }
{
    let class = value_at::<Name>(alloc, object, Field::Class)?;
    let text = text_at(alloc, object, Field::Super)?;
    Ok(Edit::SetSuper { class, text })
}

#[tactic(auto, using(crate::proofs::FirstWrong::first_wrong, crate::proofs::FirstWrong::later_wrong))]
fn set_constructor(alloc: Global, object: &Value) -> Result<Edit, Unread>
    ensures ok { IfOk result (IsEditOf (view object.now) edit_op.SetConstructor) }
    ensures err { IfErr result (IsWrongAmong (edit_fields edit_op.SetConstructor) (view object.now)) }
{
    let class = value_at::<Name>(alloc, object, Field::Class)?;
    let text = text_at(alloc, object, Field::Text)?;
    Ok(Edit::SetConstructor { class, text })
}

#[tactic(auto, using(crate::proofs::FirstWrong::first_wrong, crate::proofs::FirstWrong::later_wrong))]
fn set_colors(alloc: Global, object: &Value) -> Result<Edit, Unread>
    ensures ok { IfOk result (IsEditOf (view object.now) edit_op.SetColors) }
    ensures err { IfErr result (IsWrongAmong (edit_fields edit_op.SetColors) (view object.now)) }
{
    let site = value_at::<Site>(alloc, object, Field::Path)?;
    match values_at(alloc, object, Field::Colors) {
        Ok(marks) => Ok(Edit::SetColors { site, marks }),
        // A site is dropped as a whole.
        Err(unread) => {
            mem::drop(site);
            Err(unread)
        }
    }
}

#[tactic(auto, using(crate::proofs::FirstWrong::first_wrong, crate::proofs::FirstWrong::later_wrong))]
fn set_model(alloc: Global, object: &Value) -> Result<Edit, Unread>
    ensures ok { IfOk result (IsEditOf (view object.now) edit_op.SetModel) }
    ensures err { IfErr result (IsWrongAmong (edit_fields edit_op.SetModel) (view object.now)) }
{
    let text = text_at(alloc, object, Field::Text)?;
    Ok(Edit::SetModel { text })
}
