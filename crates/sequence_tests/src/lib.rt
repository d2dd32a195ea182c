//! Tests of sequences with presences: under each selection of five features, against what remains of them.
#![tactic(auto)]

#[cfg(test)]
mod tests;
