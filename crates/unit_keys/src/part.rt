//! The parts of a project that facts stand for.

/// The part of a project that a fact stands for, over classes and a feature model that are lent, or that are kept.
#[derive(Drop)]
pub(crate) enum Part<C, M> {
    /// There is none.
    Absent,
    /// The feature model.
    Model(M),
    /// A class as others see it.
    Head(C),
    /// All declarations in a class that have the name of the method at a place.
    Signatures(C, usize),
    /// A class without its methods.
    Own(C),
    /// The method at a place of a class.
    Method(C, usize),
}
