//! What a project is judged by, and what a judgement may look at.

use cfj_words::Name;

/// A part of a project that is judged by itself.
#[derive(Debug, Drop, PartialEq, Eq)]
pub enum Unit {
    /// The feature model.
    Model,
    /// A class with its fields and its constructor.
    Class(Name),
    /// A method of a class, by its name and its alt.
    Method(Name, Name, u16),
}

/// What a fact is about.
#[derive(Debug, Drop, PartialEq, Eq)]
pub enum Key {
    /// The feature model.
    Model,
    /// A class as others see it, without its methods and its constructor.
    Head(Name),
    /// All declarations of a method's name in a class, without their bodies.
    Sig(Name, Name),
    /// A unit itself.
    Own(Unit),
}
