//! The text of a field or a method.

ghost use Rattle.std.specs.Prelude.{◌≡◌, ℕ, ◌+◌, true, nat_le, length, [], ◌∷◌, IfOk, Err};
ghost use Rattle.cfj_model.specs.Coloring.{palette_of};
ghost use Rattle.cfj_model.specs.declared.class.Field.{Field};
ghost use Rattle.cfj_model.specs.declared.class.Method.{Method};
ghost use Rattle.cfj_model.specs.declared.member.Member.{Member};
ghost use Rattle.cfj_model.specs.Faults.{IsFirstFault};
ghost use Rattle.cfj_model.specs.Languages.{IsTextOf};
ghost use Rattle.cfj_model.specs.ProductLines.{are_distinct, most_features};
ghost use Rattle.fj_parser.specs.Answers.{IsReadAs, IsRefusedAs};
ghost use Rattle.cfj_model.specs.Parts.{is_member, is_numbered_member};
ghost use Rattle.cfj_model.specs.PartLanguages.{members_wanted};

use crate::goal::Goal;
use crate::only::only;
use crate::part::Part;
use crate::reading::read_text;
use crate::results::into_members;
use cfj_model::{FaultKind, FeatureModel, Field, Member, Method, ParseFault, Want};
use std::alloc::Global;

fn read_field<'a>(
    alloc: Global,
    text: &'a str,
    model: &'a FeatureModel,
) -> Result<Member, ParseFault>
    requires few { nat_le (length model.now.features) most_features ≡ true }
    requires distinct { are_distinct model.now.features ≡ true }
    ensures read { IfOk result (λ member. IsTextOf (members_wanted Want.Field model.entry.now.format model.entry.now.features) text.entry.now member) }
    ensures fault { (at : ℕ) (kind : _) → result ≡ Err (ParseFault.At at kind) → IsFirstFault (members_wanted Want.Field model.entry.now.format model.entry.now.features) text.entry.now at kind }
{
    let machine = read_text(alloc, Part::under(Goal::Field, model), text)?;
    Ok(Member::Field(only(into_members(alloc, machine).0)))
}

fn read_method<'a>(
    alloc: Global,
    text: &'a str,
    model: &'a FeatureModel,
) -> Result<Member, ParseFault>
    requires few { nat_le (length model.now.features) most_features ≡ true }
    requires distinct { are_distinct model.now.features ≡ true }
    ensures read { IfOk result (λ member. IsTextOf (members_wanted Want.Method model.entry.now.format model.entry.now.features) text.entry.now member) }
    ensures fault { (at : ℕ) (kind : _) → result ≡ Err (ParseFault.At at kind) → IsFirstFault (members_wanted Want.Method model.entry.now.format model.entry.now.features) text.entry.now at kind }
{
    let machine = read_text(alloc, Part::under(Goal::Method, model), text)?;
    Ok(Member::Method(only(into_members(alloc, machine).1)))
}

/// The field, or else the method, that was read.
fn one_of(fields: Vec<Field>, methods: Vec<Method>) -> Member
    requires { length fields.items + length methods.items ≡ 1 }
    ensures field { (f : Field) → fields.items ≡ f ∷ [] → result ≡ Member.Field f }
    ensures method { (m : Method) → fields.items ≡ [] → methods.items ≡ m ∷ [] → result ≡ Member.Method m }
{
    let mut fields = fields;
    match fields.pop() {
        Some(field) => Member::Field(field),
        None => Member::Method(only(methods)),
    }
}

fn read_member<'a>(
    alloc: Global,
    text: &'a str,
    model: &'a FeatureModel,
) -> Result<Member, ParseFault>
    requires few { nat_le (length model.now.features) most_features ≡ true }
    requires distinct { are_distinct model.now.features ≡ true }
    ensures read { IfOk result (λ member. IsTextOf (members_wanted Want.Any model.entry.now.format model.entry.now.features) text.entry.now member) }
    ensures fault { (at : ℕ) (kind : _) → result ≡ Err (ParseFault.At at kind) → IsFirstFault (members_wanted Want.Any model.entry.now.format model.entry.now.features) text.entry.now at kind }
{
    let machine = read_text(alloc, Part::under(Goal::Member, model), text)?;
    let (fields, methods) = into_members(alloc, machine);
    Ok(one_of(fields, methods))
}

/// What is wanted of a text.
fn read_wanted<'a>(
    alloc: Global,
    text: &'a str,
    model: &'a FeatureModel,
    want: Want,
) -> Result<Member, ParseFault>
    requires few { nat_le (length model.now.features) most_features ≡ true }
    requires distinct { are_distinct model.now.features ≡ true }
    ensures read { IfOk result (λ member. IsTextOf (members_wanted want model.entry.now.format model.entry.now.features) text.entry.now member) }
    ensures fault { (at : ℕ) (kind : _) → result ≡ Err (ParseFault.At at kind) → IsFirstFault (members_wanted want model.entry.now.format model.entry.now.features) text.entry.now at kind }
{
    match want {
        Want::Any => read_member(alloc, text, model),
        Want::Field => read_field(alloc, text, model),
        Want::Method => read_method(alloc, text, model),
    }
}

/// The member that a text stands for, of the kind that is wanted, or the text's first fault; marks name features of the model.
pub fn parse_member(
    alloc: Global,
    text: &str,
    model: &FeatureModel,
    want: Want,
) -> Result<Member, ParseFault>
    requires few { nat_le (length model.now.features) most_features ≡ true }
    requires distinct { are_distinct model.now.features ≡ true }
    // What is read is the value of a text of the grammar, and every text of the grammar is read.
    ensures read { IfOk result (λ member. IsTextOf (members_wanted want model.now.format model.now.features) text.now member) }
    ensures only { (member : Member) → IsTextOf (members_wanted want model.now.format model.now.features) text.now member → IsReadAs member result }
    // A project keeps it, and it is numbered.
    ensures kept { IfOk result (λ member. is_member (palette_of model.now) member ≡ true) }
    ensures numbered { IfOk result (λ member. is_numbered_member member ≡ true) }
    // A fault is the first one, and every first fault is told.
    ensures fault { (at : ℕ) (kind : _) → result ≡ Err (ParseFault.At at kind) → IsFirstFault (members_wanted want model.now.format model.now.features) text.now at kind }
    ensures first { (at : ℕ) (kind : _) → IsFirstFault (members_wanted want model.now.format model.now.features) text.now at kind → IsRefusedAs at kind result }
{
    read_wanted(alloc, text, model, want)
}
