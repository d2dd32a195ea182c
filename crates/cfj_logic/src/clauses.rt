//! Problems: lists of clauses over numbered variables.

use cfj_words::Items;

/// A variable, and the value of it that makes a clause true.
#[derive(Clone, Copy, Debug, PartialEq, Eq)]
pub struct Literal {
    /// The number of the variable.
    pub var: u64,
    /// The value.
    pub on: bool,
}

/// A set of clauses over variables, the first of which are the features.
#[derive(Debug, Drop)]
pub struct Clauses {
    /// The number of features, which are the first variables.
    pub features: u8,
    /// The number of variables.
    pub vars: u64,
    /// The clauses, each read as the set of its literals.
    pub list: Items<Items<Literal>>,
}
