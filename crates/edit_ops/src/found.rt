//! Whether a project has a node.

ghost use Rattle.std.specs.Prelude.{◌≡◌, ◌&&◌, ◌==◌, find};
ghost use Rattle.std.specs.List.{list_any};
ghost use Rattle.std.specs.Option.{option_copied};
ghost use Rattle.std.specs.Str.{bytes_eq};
ghost use Rattle.cfj_model.specs.Expressions.{slots};
ghost use Rattle.cfj_model.specs.LookUps.{declared};
ghost use Rattle.cfj_model.specs.Sites.{site_ref_seen};
ghost use Rattle.edit_ops.specs.Named as spec;

use cfj_model::{Arg, Class, Expr, Items, Method, Name, Param, Project, Sent, SiteRef};

/// Whether a project has this node.
pub fn has_site(project: &Project, site: SiteRef<'_>) -> bool
    ensures { result ≡ spec.has_site project.now.classes (site_ref_seen site.entry) }
{
    match site {
        SiteRef::Model => true,
        SiteRef::Class(class) | SiteRef::Ctor(class) => class_of(project, class).is_some(),
        SiteRef::Field(class, field, alt) => match class_of(project, class) {
            Some(found) => has_field(found, field, alt),
            None => false,
        },
        SiteRef::CtorParam(class, slot) => match class_of(project, class) {
            Some(found) => has_param(&found.ctor.params, slot),
            None => false,
        },
        SiteRef::SuperArg(class, slot) => match class_of(project, class) {
            Some(found) => has_sent(&found.ctor.sends, slot),
            None => false,
        },
        SiteRef::Assign(class, slot) => match class_of(project, class) {
            Some(found) => has_sent(&found.ctor.assigns, slot),
            None => false,
        },
        SiteRef::Method(class, method, alt) => method_of(project, class, method, alt).is_some(),
        SiteRef::Param(class, method, alt, slot) => match method_of(project, class, method, alt) {
            Some(found) => has_param(&found.params, slot),
            None => false,
        },
        SiteRef::Node(class, method, alt, slot) => match method_of(project, class, method, alt) {
            Some(found) => has_slot(&found.body, slot),
            None => false,
        },
    }
}

/// The class of this name.
fn class_of<'a>(project: &'a Project, name: &Name) -> Option<&'a Class>
    ensures { option_copied result ≡ declared project.now.classes name.now }
{
    match project.find(name) {
        Some(place) => Some(project.class(place)),
        None => None,
    }
}

/// The method of this class, name and alt.
fn method_of<'a>(project: &'a Project, class: &Name, name: &Name, alt: u16) -> Option<&'a Method>
    ensures { option_copied result ≡ spec.method_of project.now.classes class.now name.now alt }
{
    match class_of(project, class) {
        Some(found) => method_in(found, name, alt),
        None => None,
    }
}

/// The method of this name and alt that a class declares.
fn method_in<'a>(class: &'a Class, name: &Name, alt: u16) -> Option<&'a Method>
    ensures { option_copied result ≡ spec.method_in name.now alt class.now }
{
    let name = name.text();
    class
        .methods
        .slice()
        .iter()
        .find(|method| method.name.text() == name && method.alt == alt)
}

fn has_field(class: &Class, name: &Name, alt: u16) -> bool
    ensures { result ≡ spec.has_field name.now alt class.now }
{
    let name = name.text();
    class
        .fields
        .slice()
        .iter()
        .any(|field| field.name.text() == name && field.alt == alt)
}

fn has_param(params: &Items<Param>, slot: u16) -> bool
    ensures { result ≡ spec.has_param slot params.now }
{
    params.slice().iter().any(|param| param.slot == slot)
}

fn has_sent(sent: &Items<Sent>, slot: u16) -> bool
    ensures { result ≡ spec.has_sent slot sent.now }
{
    sent.slice().iter().any(|name| name.slot == slot)
}

/// Whether an expression has a node with this slot.
#[cycle(nodes)]
#[tactic(auto, using(crate::proofs::Slots::in_var, crate::proofs::Slots::in_get, crate::proofs::Slots::in_call, crate::proofs::Slots::in_new, crate::proofs::Slots::in_cast))]
fn has_slot(expr: &Expr, slot: u16) -> bool
    ensures { result ≡ list_any (λ s. s == slot) (slots expr.now) }
{
    match expr {
        Expr::Var { slot: own, .. } => *own == slot,
        Expr::Get { slot: own, on, .. } => has_slot(on.get(), slot) || *own == slot,
        Expr::Call {
            slot: own,
            on,
            args,
            ..
        } => has_slot(on.get(), slot) || *own == slot || any_has_slot(args.slice(), slot),
        Expr::New {
            slot: own,
            args,
            ..
        } => *own == slot || any_has_slot(args.slice(), slot),
        Expr::Cast { slot: own, on, .. } => *own == slot || has_slot(on.get(), slot),
    }
}

#[cycle(nodes)]
fn any_has_slot(args: &[Arg], slot: u16) -> bool
    ensures { result ≡ list_any (λ a. list_any (λ s. s == slot) (slots a.expr)) args.now }
{
    'each: for arg in args {
        if has_slot(&arg.expr, slot) {
            return true;
        }
    }
    false
}
