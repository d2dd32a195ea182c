//! Edits of members.

ghost use Rattle.std.specs.Prelude.{◌≡◌, ◌<◌, ◌≤◌, ◌⊎◌, true, None, Some, Err, IfOk, OnOk, length};
ghost use Rattle.cfj_model.specs.Coloring.{palette_of};
ghost use Rattle.cfj_model.specs.ProductLines.{is_field, is_method, most_fields, most_methods};
ghost use Rattle.cfj_model.specs.Sites.{member_site};
ghost use Rattle.cfj_model.specs.declared.member.Member.TheVariants as piece;
ghost use Rattle.cfj_model.specs.declared.site.Site.TheVariants as site;
ghost use Rattle.cfj_model.specs.declared.member_name.MemberName.TheVariants as named;
ghost use Rattle.edit_ops.specs.Members as spec;
ghost use Rattle.edit_ops.specs.Named.{has_site};

use crate::classes::{place_of, with_fitting};
use crate::members::{with_another, with_one, without};
use crate::refused::EditRefused;
use cfj_model::{
    Class, Field, Items, LimitKind, MOST_FIELDS, MOST_METHODS, Member, MemberName, Method, Name,
    Project,
};
use std::alloc::{AllocError, Global};
use std::mem;

/// The project without this member, which it has; the members of its name are numbered anew.
///
/// # Errors
///
/// There is no memory.
pub fn remove_member(
    alloc: Global,
    project: &Project,
    member: &MemberName,
) -> Result<Project, AllocError>
    requires { has_site project.now.classes (member_site member.now) ≡ true }
    ensures { IfOk result (λ new. new ≡ spec.member_removed member.now project.now) }
{
    match member {
        MemberName::Field(class, field, alt) => remove_field(alloc, project, class, field, *alt),
        MemberName::Method(class, method, alt) => {
            remove_method(alloc, project, class, method, *alt)
        }
    }
}

fn remove_field(
    alloc: Global,
    project: &Project,
    class: &Name,
    field: &Name,
    alt: u16,
) -> Result<Project, AllocError>
    requires { has_site project.now.classes (member_site (named.Field class.now field.now alt)) ≡ true }
    ensures { IfOk result (λ new. new ≡ spec.member_removed (named.Field class.now field.now alt) project.now) }
{
    let place = place_of(project, class);
    let changed = without_field(project.class(place).copy(alloc)?, field, alt);
    project.with_class(alloc, place, changed)
}

fn remove_method(
    alloc: Global,
    project: &Project,
    class: &Name,
    method: &Name,
    alt: u16,
) -> Result<Project, AllocError>
    requires { has_site project.now.classes (member_site (named.Method class.now method.now alt)) ≡ true }
    ensures { IfOk result (λ new. new ≡ spec.member_removed (named.Method class.now method.now alt) project.now) }
{
    let place = place_of(project, class);
    let changed = without_method(project.class(place).copy(alloc)?, method, alt);
    project.with_class(alloc, place, changed)
}

/// A class without the field of this name and alt.
fn without_field(class: Class, field: &Name, alt: u16) -> Class
    requires { length class.fields ≤ most_fields }
    ensures { result ≡ spec.field_removed field.now alt class }
{
    let Class {
        name,
        colors,
        parent,
        fields,
        ctor,
        methods,
    } = class;
    Class {
        name,
        colors,
        parent,
        fields: Items::of(without(fields.into_list(), field, alt)),
        ctor,
        methods,
    }
}

/// A class without the method of this name and alt.
fn without_method(class: Class, method: &Name, alt: u16) -> Class
    requires { length class.methods ≤ most_methods }
    ensures { result ≡ spec.method_removed method.now alt class }
{
    let Class {
        name,
        colors,
        parent,
        fields,
        ctor,
        methods,
    } = class;
    Class {
        name,
        colors,
        parent,
        fields,
        ctor,
        methods: Items::of(without(methods.into_list(), method, alt)),
    }
}

/// The project in which the class of this name, which it has, has one more member, the last of its kind; the members of its name are
/// numbered anew.
///
/// # Errors
///
/// The class has 64 fields, or 256 methods; the project would be too large; or there is no memory. It is refused by the first of these.
pub fn add_member(
    alloc: Global,
    project: &Project,
    class: &Name,
    member: Member,
) -> Result<Project, EditRefused>
    requires there { has_site project.now.classes (site.Class class.now) ≡ true }
    requires kept { spec.is_piece (palette_of project.now.model) member ≡ true }
    ensures added { IfOk result (λ new. new ≡ spec.member_added class.now member project.now) }
    ensures fine { OnOk result (spec.add_refused class.now member project.now ≡ None) }
    ensures refused { (why : EditRefused) → result ≡ Err why → (why ≡ EditRefused.NoMemory) ⊎ (spec.add_refused class.now member project.now ≡ Some why) }
{
    match member {
        Member::Field(field) => add_field(alloc, project, class, field),
        Member::Method(method) => add_method(alloc, project, class, method),
    }
}

fn add_field(
    alloc: Global,
    project: &Project,
    class: &Name,
    field: Field,
) -> Result<Project, EditRefused>
    requires there { has_site project.now.classes (site.Class class.now) ≡ true }
    requires kept { is_field (palette_of project.now.model) field ≡ true }
    ensures added { IfOk result (λ new. new ≡ spec.member_added class.now (piece.Field field) project.now) }
    ensures fine { OnOk result (spec.add_refused class.now (piece.Field field) project.now ≡ None) }
    ensures refused { (why : EditRefused) → result ≡ Err why → (why ≡ EditRefused.NoMemory) ⊎ (spec.add_refused class.now (piece.Field field) project.now ≡ Some why) }
{
    let place = place_of(project, class);
    if project.class(place).fields.slice().len() >= MOST_FIELDS {
        mem::drop(field);
        return Err(EditRefused::Limit(LimitKind::Fields));
    }
    let changed = with_field(alloc, project.class(place).copy(alloc)?, field)?;
    with_fitting(alloc, project, place, changed)
}

/// A class with one more field, the last.
fn with_field(alloc: Global, class: Class, field: Field) -> Result<Class, AllocError>
    requires { length class.fields < most_fields }
    ensures { IfOk result (λ new. new ≡ spec.field_added field class) }
{
    let Class {
        name,
        colors,
        parent,
        fields,
        ctor,
        methods,
    } = class;
    let fields = with_one(alloc, fields.into_list(), field)?;
    Ok(Class {
        name,
        colors,
        parent,
        fields: Items::of(fields),
        ctor,
        methods,
    })
}

fn add_method(
    alloc: Global,
    project: &Project,
    class: &Name,
    method: Method,
) -> Result<Project, EditRefused>
    requires there { has_site project.now.classes (site.Class class.now) ≡ true }
    requires kept { is_method (palette_of project.now.model) method ≡ true }
    ensures added { IfOk result (λ new. new ≡ spec.member_added class.now (piece.Method method) project.now) }
    ensures fine { OnOk result (spec.add_refused class.now (piece.Method method) project.now ≡ None) }
    ensures refused { (why : EditRefused) → result ≡ Err why → (why ≡ EditRefused.NoMemory) ⊎ (spec.add_refused class.now (piece.Method method) project.now ≡ Some why) }
{
    let place = place_of(project, class);
    if project.class(place).methods.slice().len() >= MOST_METHODS {
        mem::drop(method);
        return Err(EditRefused::Limit(LimitKind::Methods));
    }
    let changed = with_method(alloc, project.class(place).copy(alloc)?, method)?;
    with_fitting(alloc, project, place, changed)
}

/// A class with one more method, the last.
fn with_method(alloc: Global, class: Class, method: Method) -> Result<Class, AllocError>
    requires { length class.methods < most_methods }
    ensures { IfOk result (λ new. new ≡ spec.method_added method class) }
{
    let Class {
        name,
        colors,
        parent,
        fields,
        ctor,
        methods,
    } = class;
    let methods = with_one(alloc, methods.into_list(), method)?;
    Ok(Class {
        name,
        colors,
        parent,
        fields,
        ctor,
        methods: Items::of(methods),
    })
}

fn replace_field(
    alloc: Global,
    project: &Project,
    class: &Name,
    field: &Name,
    alt: u16,
    new: Field,
) -> Result<Project, EditRefused>
    requires there { has_site project.now.classes (member_site (named.Field class.now field.now alt)) ≡ true }
    requires kept { is_field (palette_of project.now.model) new ≡ true }
    ensures replaced { IfOk result (λ p. p ≡ spec.member_replaced (named.Field class.now field.now alt) (piece.Field new) project.now) }
    ensures fine { OnOk result (spec.replace_refused (named.Field class.now field.now alt) (piece.Field new) project.now ≡ None) }
    ensures refused { (why : EditRefused) → result ≡ Err why → (why ≡ EditRefused.NoMemory) ⊎ (spec.replace_refused (named.Field class.now field.now alt) (piece.Field new) project.now ≡ Some why) }
{
    let place = place_of(project, class);
    let changed = with_other_field(alloc, project.class(place).copy(alloc)?, field, alt, new)?;
    with_fitting(alloc, project, place, changed)
}

/// A class with another field in the place of the one of this name and alt.
fn with_other_field(
    alloc: Global,
    class: Class,
    field: &Name,
    alt: u16,
    new: Field,
) -> Result<Class, AllocError>
    requires { length class.fields ≤ most_fields }
    ensures { IfOk result (λ k. k ≡ spec.field_replaced field.now alt new class) }
{
    let Class {
        name,
        colors,
        parent,
        fields,
        ctor,
        methods,
    } = class;
    let fields = with_another(alloc, fields.into_list(), field, alt, new)?;
    Ok(Class {
        name,
        colors,
        parent,
        fields: Items::of(fields),
        ctor,
        methods,
    })
}

fn replace_method(
    alloc: Global,
    project: &Project,
    class: &Name,
    method: &Name,
    alt: u16,
    new: Method,
) -> Result<Project, EditRefused>
    requires there { has_site project.now.classes (member_site (named.Method class.now method.now alt)) ≡ true }
    requires kept { is_method (palette_of project.now.model) new ≡ true }
    ensures replaced { IfOk result (λ p. p ≡ spec.member_replaced (named.Method class.now method.now alt) (piece.Method new) project.now) }
    ensures fine { OnOk result (spec.replace_refused (named.Method class.now method.now alt) (piece.Method new) project.now ≡ None) }
    ensures refused { (why : EditRefused) → result ≡ Err why → (why ≡ EditRefused.NoMemory) ⊎ (spec.replace_refused (named.Method class.now method.now alt) (piece.Method new) project.now ≡ Some why) }
{
    let place = place_of(project, class);
    let changed = with_other_method(alloc, project.class(place).copy(alloc)?, method, alt, new)?;
    with_fitting(alloc, project, place, changed)
}

/// A class with another method in the place of the one of this name and alt.
fn with_other_method(
    alloc: Global,
    class: Class,
    method: &Name,
    alt: u16,
    new: Method,
) -> Result<Class, AllocError>
    requires { length class.methods ≤ most_methods }
    ensures { IfOk result (λ k. k ≡ spec.method_replaced method.now alt new class) }
{
    let Class {
        name,
        colors,
        parent,
        fields,
        ctor,
        methods,
    } = class;
    let methods = with_another(alloc, methods.into_list(), method, alt, new)?;
    Ok(Class {
        name,
        colors,
        parent,
        fields,
        ctor,
        methods: Items::of(methods),
    })
}

/// The project in which another member of its kind stands in the place of a member that the project has; the members of both names are
/// numbered anew.
///
/// # Errors
///
/// The project would be too large, or there is no memory.
pub fn replace_member(
    alloc: Global,
    project: &Project,
    member: &MemberName,
    new: Member,
) -> Result<Project, EditRefused>
    requires there { has_site project.now.classes (member_site member.now) ≡ true }
    requires kind { spec.is_of_kind member.now new ≡ true }
    requires kept { spec.is_piece (palette_of project.now.model) new ≡ true }
    ensures replaced { IfOk result (λ p. p ≡ spec.member_replaced member.now new project.now) }
    ensures fine { OnOk result (spec.replace_refused member.now new project.now ≡ None) }
    ensures refused { (why : EditRefused) → result ≡ Err why → (why ≡ EditRefused.NoMemory) ⊎ (spec.replace_refused member.now new project.now ≡ Some why) }
{
    match (member, new) {
        (MemberName::Field(class, field, alt), Member::Field(new)) => {
            replace_field(alloc, project, class, field, *alt, new)
        }
        (MemberName::Method(class, method, alt), Member::Method(new)) => {
            replace_method(alloc, project, class, method, *alt, new)
        }
        _ => unreachable!(),
    }
}
