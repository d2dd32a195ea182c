//! Which members are wanted.

/// Which members are read.
#[derive(Clone, Copy, Debug, PartialEq, Eq)]
pub enum Want {
    /// Fields and methods.
    Any,
    /// Fields alone.
    Field,
    /// Methods alone.
    Method,
}
