//! Items that are there under some selections alone.

/// An item, and the gate that is true where it is present.
#[derive(Debug, Drop)]
pub struct Guarded<T> {
    /// The gate, by its number in a circuit.
    pub gate: u64,
    /// What is there where the gate is true.
    pub item: T,
}
