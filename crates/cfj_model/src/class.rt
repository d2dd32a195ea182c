//! Classes, their members and what these are made of.

ghost use Rattle.std.specs.Prelude.{◌≡◌, IfOk, sum_by};
ghost use Rattle.cfj_model.specs.ProductLines.{class_size, method_size};
ghost use Rattle.cfj_model.specs.Sizes.{counted};

use crate::colors::Colors;
use crate::expr::Expr;
use cfj_words::{Copied, Items, Name, both, copied_items};
use std::alloc::{AllocError, Global};

/// `of name;` in a class.
#[derive(Debug, Drop)]
pub struct Field {
    /// How many fields of this name stand before it in its class.
    pub alt: u16,
    /// What it is marked with.
    pub colors: Colors,
    /// Its type.
    pub of: Name,
    /// Its name.
    pub name: Name,
}

/// `of name` in a list of parameters.
#[derive(Debug, Drop)]
pub struct Param {
    /// Its place in the list, which projection keeps.
    pub slot: u16,
    /// What it is marked with.
    pub colors: Colors,
    /// Its type.
    pub of: Name,
    /// Its name.
    pub name: Name,
}

/// A name that a constructor passes to `super`, or a field that it assigns.
#[derive(Debug, Drop)]
pub struct Sent {
    /// Its place in the list, which projection keeps.
    pub slot: u16,
    /// What it is marked with.
    pub colors: Colors,
    /// The name.
    pub name: Name,
}

/// The constructor of a class; its name is the class's.
#[derive(Debug, Drop)]
pub struct Constructor {
    /// Its parameters.
    pub params: Items<Param>,
    /// The names passed to `super`.
    pub sends: Items<Sent>,
    /// The fields assigned, each from the parameter of its name.
    pub assigns: Items<Sent>,
}

/// A method.
#[derive(Debug, Drop)]
pub struct Method {
    /// How many methods of this name stand before it in its class.
    pub alt: u16,
    /// What it is marked with.
    pub colors: Colors,
    /// The type of its result.
    pub result: Name,
    /// Its name.
    pub name: Name,
    /// Its parameters.
    pub params: Items<Param>,
    /// The expression that it returns.
    pub body: Expr,
}

/// A class.
#[derive(Debug, Drop)]
pub struct Class {
    /// Its name.
    pub name: Name,
    /// What it is marked with.
    pub colors: Colors,
    /// Its superclass.
    pub parent: Name,
    /// Its fields.
    pub fields: Items<Field>,
    /// Its constructor.
    pub ctor: Constructor,
    /// Its methods.
    pub methods: Items<Method>,
}

impl Field {
    /// An equal field in memory of its own.
    ///
    /// # Errors
    ///
    /// There is no memory for it.
    pub fn copy(&self, alloc: Global) -> Result<Field, AllocError>
        ensures { IfOk result (λ field. field ≡ self.now) }
    {
        let (of, name) = both(self.of.copy(alloc), self.name.copy(alloc))?;
        Ok(Field {
            alt: self.alt,
            colors: self.colors,
            of,
            name,
        })
    }
}

impl Copied for Field {
    fn copied(&self, alloc: Global) -> Result<Field, AllocError> {
        self.copy(alloc)
    }
}

impl Param {
    /// An equal parameter in memory of its own.
    ///
    /// # Errors
    ///
    /// There is no memory for it.
    pub fn copy(&self, alloc: Global) -> Result<Param, AllocError>
        ensures { IfOk result (λ param. param ≡ self.now) }
    {
        let (of, name) = both(self.of.copy(alloc), self.name.copy(alloc))?;
        Ok(Param {
            slot: self.slot,
            colors: self.colors,
            of,
            name,
        })
    }
}

impl Copied for Param {
    fn copied(&self, alloc: Global) -> Result<Param, AllocError> {
        self.copy(alloc)
    }
}

impl Sent {
    /// An equal name in memory of its own.
    ///
    /// # Errors
    ///
    /// There is no memory for it.
    pub fn copy(&self, alloc: Global) -> Result<Sent, AllocError>
        ensures { IfOk result (λ sent. sent ≡ self.now) }
    {
        Ok(Sent {
            slot: self.slot,
            colors: self.colors,
            name: self.name.copy(alloc)?,
        })
    }
}

impl Copied for Sent {
    fn copied(&self, alloc: Global) -> Result<Sent, AllocError> {
        self.copy(alloc)
    }
}

impl Constructor {
    /// An equal constructor in memory of its own.
    ///
    /// # Errors
    ///
    /// There is no memory for it.
    pub fn copy(&self, alloc: Global) -> Result<Constructor, AllocError>
        ensures { IfOk result (λ ctor. ctor ≡ self.now) }
    {
        let params = copied_items(alloc, &self.params);
        let sends = copied_items(alloc, &self.sends);
        let (params, (sends, assigns)) = both(
            params,
            both(sends, copied_items(alloc, &self.assigns)),
        )?;
        Ok(Constructor {
            params,
            sends,
            assigns,
        })
    }
}

impl Method {
    /// An equal method in memory of its own.
    ///
    /// # Errors
    ///
    /// There is no memory for it.
    pub fn copy(&self, alloc: Global) -> Result<Method, AllocError>
        ensures { IfOk result (λ method. method ≡ self.now) }
    {
        let names = both(self.result.copy(alloc), self.name.copy(alloc));
        let parts = both(copied_items(alloc, &self.params), self.body.copy(alloc));
        let ((result, name), (params, body)) = both(names, parts)?;
        Ok(Method {
            alt: self.alt,
            colors: self.colors,
            result,
            name,
            params,
            body,
        })
    }

    /// The method, its parameters and its nodes together; the greatest `usize` where that is less.
    pub fn size(&self) -> usize
        ensures { result ≡ counted (method_size self.now) }
    {
        let signature = self.params.slice().len().saturating_add(1);
        signature.saturating_add(self.body.node_count())
    }
}

impl Copied for Method {
    fn copied(&self, alloc: Global) -> Result<Method, AllocError> {
        self.copy(alloc)
    }
}

impl Class {
    /// An equal class in memory of its own.
    ///
    /// # Errors
    ///
    /// There is no memory for it.
    pub fn copy(&self, alloc: Global) -> Result<Class, AllocError>
        ensures { IfOk result (λ class. class ≡ self.now) }
    {
        let names = both(self.name.copy(alloc), self.parent.copy(alloc));
        let members = both(
            copied_items(alloc, &self.fields),
            copied_items(alloc, &self.methods),
        );
        let ((name, parent), (ctor, (fields, methods))) = both(
            names,
            both(self.ctor.copy(alloc), members),
        )?;
        Ok(Class {
            name,
            colors: self.colors,
            parent,
            fields,
            ctor,
            methods,
        })
    }

    /// The class, its fields, methods, parameters, sent names, assignments and expression nodes together; the greatest `usize` where
    /// that is less.
    pub fn size(&self) -> usize
        ensures { result ≡ counted (class_size self.now) }
    {
        let ctor = self.ctor.params.slice().len();
        let ctor = ctor.saturating_add(self.ctor.sends.slice().len());
        let ctor = ctor.saturating_add(self.ctor.assigns.slice().len());
        let members = self.fields.slice().len().saturating_add(ctor);
        members
            .saturating_add(1)
            .saturating_add(methods_size(self.methods.slice()))
    }
}

// The sizes of methods together.
fn methods_size(methods: &[Method]) -> usize
    ensures { result ≡ counted (sum_by method_size methods.now) }
{
    let mut size = 0usize;
    'each: for method in methods {
        size = size.saturating_add(method.size());
    }
    size
}
