//! Tests of circuits, their clauses, logs and the solver together, against plain evaluation and plain search.
#![tactic(auto)]

#[cfg(test)]
mod tests;
