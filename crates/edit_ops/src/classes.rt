//! Edits of whole classes.

ghost use Rattle.std.specs.Prelude.{◌≡◌, ◌<◌, ◌⊎◌, true, None, Some, IfOk, Err, OnOk, length, nat_le, position, slice_set};
ghost use Rattle.cfj_model.specs.Coloring.{palette_of};
ghost use Rattle.cfj_model.specs.ProductLines.{IsProject, is_class, is_ctor, most_size, size};
ghost use Rattle.cfj_model.specs.LookUps.{is_called};
ghost use Rattle.cfj_words.specs.Names.{is_short_identifier};
ghost use Rattle.cfj_model.specs.declared.site.Site.TheVariants as site;
ghost use Rattle.edit_ops.specs.Changes as spec;
ghost use Rattle.edit_ops.specs.Named.{has_site};

use crate::refused::EditRefused;
use cfj_model::{Class, Constructor, LimitKind, MOST_CLASSES, MOST_SIZE, Name, Project};
use std::alloc::{AllocError, Global};
use std::mem;

/// Whether a class may become the last of a project.
fn may_be_added(alloc: Global, project: &Project, class: &Class) -> Result<(), EditRefused>
    ensures fine { OnOk result (spec.class_refused class.now project.now ≡ None) }
    ensures refused { (why : EditRefused) → result ≡ Err why → (why ≡ EditRefused.NoMemory) ⊎ (spec.class_refused class.now project.now ≡ Some why) }
    ensures kept { OnOk result (IsProject project.now) }
{
    if project.find(&class.name).is_some() {
        return Err(EditRefused::Exists(class.name.copy(alloc)?));
    }
    if project.class_count() >= MOST_CLASSES {
        return Err(EditRefused::Limit(LimitKind::Classes));
    }
    if project.size().saturating_add(class.size()) > MOST_SIZE {
        return Err(EditRefused::Limit(LimitKind::Size));
    }
    Ok(())
}

/// The project with one more class, the last.
///
/// # Errors
///
/// A class has its name; there are 1,024 classes; the project would be too large; or there is no memory. It is refused by the first of
/// these.
pub fn add_class(alloc: Global, project: &Project, class: Class) -> Result<Project, EditRefused>
    requires { is_class (palette_of project.now.model) class ≡ true }
    ensures added { IfOk result (λ new. new ≡ spec.class_added class project.now) }
    ensures fine { OnOk result (spec.class_refused class project.now ≡ None) }
    ensures refused { (why : EditRefused) → result ≡ Err why → (why ≡ EditRefused.NoMemory) ⊎ (spec.class_refused class project.now ≡ Some why) }
{
    may_be_added(alloc, project, &class)?;
    Ok(project.with_added(alloc, class)?)
}

/// The place of the class of this name.
pub(crate) fn place_of(project: &Project, class: &Name) -> usize
    requires { has_site project.now.classes (site.Class class.now) ≡ true }
    ensures place { position (is_called class.now) project.now.classes ≡ Some result }
    ensures within { result < length project.now.classes }
    ensures kept { IsProject project.now }
{
    let _kept = project.model();
    match project.find(class) {
        Some(place) => place,
        None => unreachable!(),
    }
}

/// The project without the class of this name, which it has.
///
/// # Errors
///
/// There is no memory.
pub fn remove_class(alloc: Global, project: &Project, class: &Name) -> Result<Project, AllocError>
    requires { has_site project.now.classes (site.Class class.now) ≡ true }
    ensures { IfOk result (λ new. new ≡ spec.class_removed class.now project.now) }
{
    project.without(alloc, place_of(project, class))
}

/// A class with another superclass.
fn with_parent(class: Class, parent: Name) -> Class
    ensures { result ≡ record class { parent = parent } }
{
    let mut class = class;
    class.parent = parent;
    class
}

/// The project in which the class of this name, which it has, has another superclass.
///
/// # Errors
///
/// There is no memory.
pub fn set_super(
    alloc: Global,
    project: &Project,
    class: &Name,
    parent: Name,
) -> Result<Project, AllocError>
    requires there { has_site project.now.classes (site.Class class.now) ≡ true }
    requires named { is_short_identifier parent ≡ true }
    ensures { IfOk result (λ new. new ≡ spec.super_set class.now parent project.now) }
{
    let place = place_of(project, class);
    let changed = with_parent(project.class(place).copy(alloc)?, parent);
    project.with_class(alloc, place, changed)
}

/// A class with another constructor.
fn with_ctor(class: Class, ctor: Constructor) -> Class
    ensures { result ≡ record class { ctor = ctor } }
{
    let mut class = class;
    class.ctor = ctor;
    class
}

/// Whether a project stays within its size with this class in the place of another.
fn fits(project: &Project, place: usize, class: &Class) -> bool
    requires { place < length project.now.classes }
    ensures { result ≡ nat_le (size (slice_set project.now.classes place class.now)) most_size }
{
    let others = project.size().saturating_sub(project.class(place).size());
    others.saturating_add(class.size()) <= MOST_SIZE
}

/// The project with this class at a place.
///
/// # Errors
///
/// The project would be too large, or there is no memory.
pub(crate) fn with_fitting(
    alloc: Global,
    project: &Project,
    place: usize,
    class: Class,
) -> Result<Project, EditRefused>
    requires within { place < length project.now.classes }
    requires kept { nat_le (size (slice_set project.now.classes place class)) most_size ≡ true → IsProject (record project.now { classes = slice_set project.now.classes place class }) }
    ensures set { IfOk result (λ new. new ≡ record project.now { classes = slice_set project.now.classes place class }) }
    ensures fine { OnOk result (spec.size_refused (record project.now { classes = slice_set project.now.classes place class }) ≡ None) }
    ensures refused { (why : EditRefused) → result ≡ Err why → (why ≡ EditRefused.NoMemory) ⊎ (spec.size_refused (record project.now { classes = slice_set project.now.classes place class }) ≡ Some why) }
{
    if !fits(project, place, &class) {
        mem::drop(class);
        return Err(EditRefused::Limit(LimitKind::Size));
    }
    Ok(project.with_class(alloc, place, class)?)
}

/// The project in which the class of this name, which it has, has another constructor.
///
/// # Errors
///
/// The project would be too large, or there is no memory.
pub fn set_constructor(
    alloc: Global,
    project: &Project,
    class: &Name,
    ctor: Constructor,
) -> Result<Project, EditRefused>
    requires there { has_site project.now.classes (site.Class class.now) ≡ true }
    requires kept { is_ctor (palette_of project.now.model) ctor ≡ true }
    ensures set { IfOk result (λ new. new ≡ spec.ctor_set class.now ctor project.now) }
    ensures fine { OnOk result (spec.ctor_refused class.now ctor project.now ≡ None) }
    ensures refused { (why : EditRefused) → result ≡ Err why → (why ≡ EditRefused.NoMemory) ⊎ (spec.ctor_refused class.now ctor project.now ≡ Some why) }
{
    let place = place_of(project, class);
    let changed = with_ctor(project.class(place).copy(alloc)?, ctor);
    with_fitting(alloc, project, place, changed)
}
