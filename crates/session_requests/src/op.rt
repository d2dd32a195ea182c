//! The ops of requests.

ghost use Rattle.std.specs.Prelude.{◌≡◌, MatchOption, find};
ghost use Rattle.std.specs.List.{list_any};
ghost use Rattle.std.specs.Str.{bytes_eq};
ghost use Rattle.session_requests.specs.Ops as spec;
ghost use Rattle.session_requests.specs.BadLines.{may_have};
ghost use Rattle.session_requests.specs.declared.op.Op.{Op as SeenOp};

use crate::field::Field;

/// The op of an edit.
#[derive(Clone, Copy, Debug, PartialEq, Eq)]
pub enum EditOp {
    /// One more class.
    AddClass,
    /// A class goes.
    RemoveClass,
    /// One more member of a class.
    AddMember,
    /// Another member in the place of one.
    ReplaceMember,
    /// A member goes.
    RemoveMember,
    /// Another superclass.
    SetSuper,
    /// Another constructor.
    SetConstructor,
    /// Other marks of a node.
    SetColors,
    /// Another feature model.
    SetModel,
}

/// What a request asks to be done.
#[derive(Clone, Copy, Debug, PartialEq, Eq)]
pub enum Op {
    /// An edit.
    Edit(EditOp),
    /// A publication of what was edited.
    Refresh,
    /// The numbers of the last edition.
    Read,
    /// The findings of the last edition.
    Entries,
    /// The text of the last edition.
    Source,
    /// The text of a variant.
    Export,
    /// The nodes that are marked with a feature.
    View,
    /// The end of the session.
    Done,
}

/// Every op.
const OPS: [Op; 16] = [
    Op::Edit(EditOp::AddClass),
    Op::Edit(EditOp::RemoveClass),
    Op::Edit(EditOp::AddMember),
    Op::Edit(EditOp::ReplaceMember),
    Op::Edit(EditOp::RemoveMember),
    Op::Edit(EditOp::SetSuper),
    Op::Edit(EditOp::SetConstructor),
    Op::Edit(EditOp::SetColors),
    Op::Edit(EditOp::SetModel),
    Op::Refresh,
    Op::Read,
    Op::Entries,
    Op::Source,
    Op::Export,
    Op::View,
    Op::Done,
];

impl EditOp {
    /// Its name.
    fn text(self) -> &'static str
        ensures { result.now ≡ spec.edit_text self }
    {
        match self {
            EditOp::AddClass => "add_class",
            EditOp::RemoveClass => "remove_class",
            EditOp::AddMember => "add_member",
            EditOp::ReplaceMember => "replace_member",
            EditOp::RemoveMember => "remove_member",
            EditOp::SetSuper => "set_super",
            EditOp::SetConstructor => "set_constructor",
            EditOp::SetColors => "set_colors",
            EditOp::SetModel => "set_model",
        }
    }

    /// All fields of a request with this op, in order.
    fn fields(self) -> &'static [Field]
        ensures { result.now ≡ spec.fields (SeenOp.Edit self) }
    {
        match self {
            EditOp::AddClass | EditOp::SetModel => &[Field::Base, Field::Text],
            EditOp::RemoveClass => &[Field::Base, Field::Class],
            EditOp::AddMember | EditOp::SetConstructor => {
                &[Field::Base, Field::Class, Field::Text]
            }
            EditOp::ReplaceMember => &[Field::Base, Field::Member, Field::Text],
            EditOp::RemoveMember => &[Field::Base, Field::Member],
            EditOp::SetSuper => &[Field::Base, Field::Class, Field::Super],
            EditOp::SetColors => &[Field::Base, Field::Path, Field::Colors],
        }
    }
}

impl Op {
    /// The op with this name; `None` exactly where there is none.
    pub fn of(text: &str) -> Option<Op>
        ensures { MatchOption result ((op : SeenOp) → text.now ≡ spec.op_text op → ⊥) (λ op. text.now ≡ spec.op_text op) }
    {
        named(&OPS, text)
    }

    /// Its name.
    pub fn text(self) -> &'static str
        ensures { result.now ≡ spec.op_text self }
    {
        match self {
            Op::Edit(op) => op.text(),
            Op::Refresh => "refresh",
            Op::Read => "read",
            Op::Entries => "entries",
            Op::Source => "source",
            Op::Export => "export",
            Op::View => "view",
            Op::Done => "done",
        }
    }

    /// Its fields, in order.
    pub fn fields(self) -> &'static [Field]
        ensures { result.now ≡ spec.fields self }
    {
        match self {
            Op::Edit(op) => op.fields(),
            Op::Export => &[Field::Select],
            Op::View => &[Field::Feature],
            Op::Refresh | Op::Read | Op::Entries | Op::Source | Op::Done => &[],
        }
    }

    /// Whether a request with this op may have a member with this key.
    pub fn may_have(self, key: &str) -> bool
        ensures { result ≡ may_have self key.now }
    {
        "op" == key || has_key(self.fields(), key)
    }
}

/// The first of the ops that has this name.
fn named(ops: &[Op], text: &str) -> Option<Op>
    ensures { result ≡ find (λ op. bytes_eq (spec.op_text op) text.now) ops.now }
{
    ops.iter().copied().find(|op| op.text() == text)
}

/// Whether one of the fields has this key.
fn has_key(fields: &[Field], key: &str) -> bool
    ensures { result ≡ list_any (λ field. bytes_eq (spec.key field) key.now) fields.now }
{
    fields.iter().any(|field| field.key() == key)
}
