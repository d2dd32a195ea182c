//! The sizes that no project may pass.

/// The most features in a project.
pub const MOST_FEATURES: usize = 128;

/// The most nodes in all formulas of a project.
pub const MOST_FORMULA_NODES: usize = 4096;

/// The most constructs open at once in an expression or a formula.
pub const MOST_NEST: usize = 64;

/// The most classes in a project.
pub const MOST_CLASSES: usize = 1024;

/// The most fields in a class.
pub const MOST_FIELDS: usize = 64;

/// The most methods in a class.
pub const MOST_METHODS: usize = 256;

/// The most parameters of a method.
pub const MOST_PARAMS: usize = 16;

/// The most items in each list of a constructor.
pub const MOST_IN_CTOR: usize = 1024;

/// The most nodes in a body.
pub const MOST_NODES: usize = 1024;

/// The most declarations, sent names, assignments and nodes in a project.
pub const MOST_SIZE: usize = 1_000_000;
