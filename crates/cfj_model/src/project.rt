//! Product lines.

ghost use Rattle.std.specs.Prelude.{◌≡◌, ◌+◌, ◌<◌, [], ◌∷◌, ◌++◌, IfOk, IsTrue, Some, true, drop, length, map, nat_le, position, slice_get, slice_set, take};
ghost use Rattle.std.specs.Str.{bytes_eq};
ghost use Rattle.cfj_model.specs.ProductLines as spec;
ghost use Rattle.cfj_model.specs.ProductLines.{IsProject};
ghost use Rattle.cfj_model.specs.Sizes.{counted};

use crate::class::Class;
use crate::class_names::ClassNames;
use crate::feature_model::FeatureModel;
use cfj_words::Name;
use shared_list::{Shared, SharedList};
use std::alloc::{AllocError, Global};
use std::marker::Model;
use std::sync::Arc;

/// A product line: a feature model, and classes whose nodes may be marked with its features.
///
/// A project that is made of another shares with it what didn't change. Its type keeps the limits, unique names of features, of classes
/// and of the parameters of a method, known features, that no node wants a feature and doesn't want it too, that in format one each mark
/// wants its feature, that no class is named `Object`, and that slots rise, as do the alts of the
/// members of one name.
#[derive(Debug, Drop)]
pub struct Project {
    model: Arc<FeatureModel>,
    classes: SharedList<Class>,
    names: Arc<ClassNames>,
    // Kept, so that no change counts more than the class that it changes.
    size: usize,
}

impl Model for Project {
    ghost use Rattle.std.specs.Prelude.{◌≡◌, map};
    ghost use Rattle.cfj_model.specs.ProductLines as spec;
    ghost use Rattle.cfj_model.specs.ProductLines.{ProductLine, IsProject};
    ghost use Rattle.cfj_model.specs.contracts.expr.Expr as expr;
    ghost use Rattle.cfj_logic.specs.contracts.formula.Formula as formula;
    ghost use Rattle.std.specs.Coded.{codes};

    ghost Value = { ProductLine };

    ghost coded = { Prim.hlevel (codes, expr.the_row.coded, formula.the_row.coded) };

    ghost view = { λ p. record { model = p.model.value; classes = p.classes } };

    ghost invariant = { λ p. (p.size ≡ spec.size p.classes) × (p.names.value ≡ map (λ k. k.name) p.classes) × IsProject (record { model = p.model.value; classes = p.classes }) };
}

impl Project {
    /// The project with this model and these classes.
    pub fn of(model: Arc<FeatureModel>, classes: Vec<Class>) -> Result<Project, AllocError>
        requires { IsProject (record { model = model.value; classes = classes.items }) }
        ensures { IfOk result (λ p. p ≡ record { model = model.value; classes = classes.items }) }
    {
        let alloc = *classes.allocator();
        let size = size_of(classes.as_slice());
        let classes = SharedList::of(alloc, classes)?;
        let names = names_of(alloc, &classes)?;
        Ok(Project {
            model,
            classes,
            names,
            size,
        })
    }

    /// Its features.
    pub fn model(&self) -> &FeatureModel
        ensures model { result.now ≡ self.now.model }
        ensures kept { IsProject self.now }
    {
        &self.model
    }

    /// The number of its classes.
    pub fn class_count(&self) -> usize
        ensures count { result ≡ length self.now.classes }
        ensures kept { IsProject self.now }
    {
        self.classes.len()
    }

    /// Its classes, fields, methods, parameters, sent names, assignments and expression nodes together. Nothing is counted anew.
    pub fn size(&self) -> usize
        ensures { result ≡ spec.size self.now.classes }
    {
        self.size
    }

    /// The class at a place, from 0.
    pub fn class(&self, place: usize) -> &Class
        requires { place < length self.now.classes }
        ensures { slice_get self.now.classes place ≡ Some result.now }
    {
        self.classes.get(place)
    }

    /// An owner of the class at a place, from 0, which may be shared with what outlives the project.
    pub fn owner(&self, place: usize) -> &Shared<Class>
        requires { place < length self.now.classes }
        ensures { slice_get self.now.classes place ≡ Some result.now }
    {
        self.classes.owner(place)
    }

    /// The place of the class with this name. No call goes through the classes.
    pub fn find(&self, name: &Name) -> Option<usize>
        ensures { result ≡ position (λ k. bytes_eq k.name name.now) self.now.classes }
    {
        self.names.place(name)
    }

    /// The same project. No class is copied.
    ///
    /// # Errors
    ///
    /// There is no memory for it.
    pub fn copy(&self, alloc: Global) -> Result<Project, AllocError>
        ensures { IfOk result (λ p. p ≡ self.now) }
    {
        Ok(Project {
            model: Arc::try_clone(&self.model)?,
            classes: self.classes.copy(alloc)?,
            names: Arc::try_clone(&self.names)?,
            size: self.size,
        })
    }

    /// The project with this model in place of its own.
    ///
    /// # Errors
    ///
    /// There is no memory for it.
    pub fn with_model(&self, alloc: Global, model: Arc<FeatureModel>) -> Result<Project, AllocError>
        requires { IsProject (record self.now { model = model.value }) }
        ensures { IfOk result (λ p. p ≡ record self.now { model = model.value }) }
    {
        Ok(Project {
            model,
            classes: self.classes.copy(alloc)?,
            names: Arc::try_clone(&self.names)?,
            size: self.size,
        })
    }

    /// The project with this class at a place, in place of the one there. No other class is copied.
    ///
    /// # Errors
    ///
    /// There is no memory for it.
    pub fn with_class(
        &self,
        alloc: Global,
        place: usize,
        class: Class,
    ) -> Result<Project, AllocError>
        requires within { place < length self.now.classes }
        requires kept { IsProject (record self.now { classes = slice_set self.now.classes place class }) }
        ensures { IfOk result (λ p. p ≡ record self.now { classes = slice_set self.now.classes place class }) }
    {
        let size = self.size_with(place, &class);
        let is_same_name = self.classes.get(place).name == class.name;
        let classes = self.classes.with(alloc, place, class)?;
        let names = self.names_with(alloc, is_same_name, &classes)?;
        Ok(Project {
            model: Arc::try_clone(&self.model)?,
            classes,
            names,
            size,
        })
    }

    /// The project with one more class, the last.
    ///
    /// # Errors
    ///
    /// There is no memory for it.
    pub fn with_added(&self, alloc: Global, class: Class) -> Result<Project, AllocError>
        requires { IsProject (record self.now { classes = self.now.classes ++ class ∷ [] }) }
        ensures { IfOk result (λ p. p ≡ record self.now { classes = self.now.classes ++ class ∷ [] }) }
    {
        let size = self.size_with_added(&class);
        let classes = self.classes.pushed(alloc, class)?;
        let names = names_of(alloc, &classes)?;
        Ok(Project {
            model: Arc::try_clone(&self.model)?,
            classes,
            names,
            size,
        })
    }

    /// The project without the class at a place.
    ///
    /// # Errors
    ///
    /// There is no memory for it.
    pub fn without(&self, alloc: Global, place: usize) -> Result<Project, AllocError>
        requires within { place < length self.now.classes }
        requires kept { IsProject (record self.now { classes = take place self.now.classes ++ drop (place + 1) self.now.classes }) }
        ensures { IfOk result (λ p. p ≡ record self.now { classes = take place self.now.classes ++ drop (place + 1) self.now.classes }) }
    {
        let size = self.size_without(place);
        let classes = self.classes.without(alloc, place)?;
        let names = names_of(alloc, &classes)?;
        Ok(Project {
            model: Arc::try_clone(&self.model)?,
            classes,
            names,
            size,
        })
    }

    // The names of classes, which are those of its own where one was replaced by one of the same name.
    fn names_with(
        &self,
        alloc: Global,
        is_same_name: bool,
        classes: &SharedList<Class>,
    ) -> Result<Arc<ClassNames>, AllocError>
        requires distinct { spec.are_distinct (map (λ k. k.name) classes.now) ≡ true }
        requires same { IsTrue is_same_name → map (λ k. k.name) classes.now ≡ map (λ k. k.name) self.now.classes }
        ensures { IfOk result (λ names. names.value ≡ map (λ k. k.name) classes.now) }
    {
        if is_same_name {
            Ok(Arc::try_clone(&self.names)?)
        } else {
            names_of(alloc, classes)
        }
    }

    // Its size with this class at a place.
    fn size_with(&self, place: usize, class: &Class) -> usize
        requires within { place < length self.now.classes }
        requires fits { nat_le (spec.size (slice_set self.now.classes place class.now)) spec.most_size ≡ true }
        ensures { result ≡ spec.size (slice_set self.now.classes place class.now) }
    {
        self.size_without(place) + class.size()
    }

    // Its size with one more class.
    fn size_with_added(&self, class: &Class) -> usize
        requires { nat_le (spec.size (self.now.classes ++ class.now ∷ [])) spec.most_size ≡ true }
        ensures { result ≡ spec.size (self.now.classes ++ class.now ∷ []) }
    {
        self.size + class.size()
    }

    // Its size without the class at a place.
    fn size_without(&self, place: usize) -> usize
        requires { place < length self.now.classes }
        ensures { result ≡ spec.size (take place self.now.classes ++ drop (place + 1) self.now.classes) }
    {
        self.size - self.classes.get(place).size()
    }
}

// The names of classes, no two of which have one name.
fn names_of(alloc: Global, classes: &SharedList<Class>) -> Result<Arc<ClassNames>, AllocError>
    requires { spec.are_distinct (map (λ k. k.name) classes.now) ≡ true }
    ensures { IfOk result (λ names. names.value ≡ map (λ k. k.name) classes.now) }
{
    Ok(Arc::new(alloc, ClassNames::of(alloc, classes)?)?)
}

// The size of classes together; the greatest `usize` where that is less.
fn size_of(classes: &[Class]) -> usize
    ensures { result ≡ counted (spec.size classes.now) }
{
    let mut size = 0usize;
    'each: for class in classes {
        size = size.saturating_add(class.size());
    }
    size
}
